//! Connections that are made, served, and summed up.
ghost use Rattle.std.specs.Prelude.{◌≤◌, ◌<◌, IfOk, IfErr};
ghost use Rattle.service_core.specs.Counts.{Rose};
ghost use Rattle.server.specs.Starting.{RoseBy};
ghost use Rattle.replaying.specs.Replaying.{IsUngenerated};
ghost use Rattle.replaying.specs.Summary.{IsSummaryOf};

use crate::replay_error::ReplayError;
use crate::serving::serve_script;
use generator::Generated;
use report::summary_text;
use server_jobs::{Clock, Spawner};
use server_run::Host;
use service_core::Octets;
use std::alloc::Global;

/// Makes so many connections from the seed, serves them on four workers, and sums them up. Returns the summary's text, or why
/// nothing was served.
pub fn generate<Ho: Host + 'static, Cl: Clock, Sp: Spawner>(
    rt: &Ho,
    alloc: Global,
    count: usize,
    seed: u32,
    clock: &mut Cl,
    spawner: &mut Sp,
) -> Result<Octets, ReplayError>
    requires few { count ≤ 100000 }
    requires seed { seed < 2147483648 }
    ensures started { IfOk result (λ _. RoseBy 4 (Sp.starts spawner.old) (Sp.starts spawner.new)) }
    ensures summary { IfOk result (IsSummaryOf count seed) }
    ensures refused { IfErr result (IsUngenerated (Rose (Sp.refusals spawner.old) (Sp.refusals spawner.new))) }
{
    let Generated { script, requests } = generator::generate(alloc, count, seed)?;
    match serve_script(rt, alloc, script, clock, spawner) {
        Err(error) => Err(error),
        Ok(run) => Ok(summary_text(alloc, count, requests, run.done.entries(), run.report.end)?),
    }
}
