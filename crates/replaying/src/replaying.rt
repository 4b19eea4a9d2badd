//! A script served, and its report.
ghost use Rattle.std.specs.Prelude.{◌≡◌, None, true, IfOk, IfErr};
ghost use Rattle.service_core.specs.Counts.{Rose};
ghost use Rattle.cors_rules.specs.Refusing.{config_error};
ghost use Rattle.script.specs.Plan.{plan};
ghost use Rattle.script.specs.Script.{is_listening};
ghost use Rattle.server.specs.Starting.{RoseBy};
ghost use Rattle.replaying.specs.Replaying.{IsUnreplayed};
ghost use Rattle.replaying.specs.Reported.{IsReportOf};

use crate::replay_error::ReplayError;
use crate::serving::serve_script;
use report::report_text;
use script::Script;
use server_jobs::{Clock, Spawner};
use server_run::Host;
use service_core::Octets;
use std::alloc::Global;

/// Serves the script's connections, and tells them in a report. Returns its text, or why nothing was served.
pub fn replay<Ho: Host + 'static, Cl: Clock, Sp: Spawner>(
    rt: &Ho,
    alloc: Global,
    script: Script,
    clock: &mut Cl,
    spawner: &mut Sp,
) -> Result<Octets, ReplayError>
    requires { is_listening (plan script) ≡ true }
    ensures starts { IfOk result (λ _. config_error (plan script).cors ≡ None) }
    ensures started { IfOk result (λ _. RoseBy (plan script).workers (Sp.starts spawner.old) (Sp.starts spawner.new)) }
    ensures report { IfOk result (λ text. IsReportOf (plan script) text) }
    ensures refused { IfErr result (IsUnreplayed (plan script).cors (Rose (Sp.refusals spawner.old) (Sp.refusals spawner.new))) }
{
    let run = serve_script(rt, alloc, script, clock, spawner)?;
    Ok(report_text(alloc, run.done.entries(), &run.report)?)
}
