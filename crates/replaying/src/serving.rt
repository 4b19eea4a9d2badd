//! A script served over links in memory.
ghost use Rattle.std.specs.Prelude.{◌≡◌, None, true, IfOk, IfErr};
ghost use Rattle.service_core.specs.Counts.{Rose};
ghost use Rattle.cors_rules.specs.Policy.{Builder};
ghost use Rattle.cors_rules.specs.Refusing.{config_error};
ghost use Rattle.cors_answer.specs.Transforms.{Refuses};
ghost use Rattle.script.specs.Plan.{plan};
ghost use Rattle.script.specs.Script.{is_listening};
ghost use Rattle.script.specs.declared.policy.script_rule.ScriptRule.{ScriptRule as Rule};
ghost use Rattle.script_service.specs.Factories.{RefusesSite, replay_builder, replay_site};
ghost use Rattle.script_service.specs.Sites.{site_of};
ghost use Rattle.server.specs.Servers.{settings_of};
ghost use Rattle.server.specs.Starting.{RoseBy};
ghost use Rattle.replaying.specs.Replaying.{IsUnreplayed, settings_by};
ghost use Rattle.replaying.specs.Running.{Runs};

use crate::replay_error::ReplayError;
use cors_answer::CorsInitError;
use http_flow::{HttpInitError, Never};
use script::{Script, build_policy, into_listeners};
use script_service::ReplayFactory;
use server::ServerBuilder;
use server_commands::NoCommands;
use server_jobs::{Clock, Spawner};
use server_run::{Host, KeepAll, MemoryLink, Report, ServeError};
use service_core::{Ended, Link};
use std::alloc::{AllocError, Global};
use std::marker::PhantomData;

/// What a script that was served came to: its connections, in the order in which they ended, and the server's report.
#[derive(Drop)]
pub(crate) struct ScriptRun {
    pub(crate) done: KeepAll<MemoryLink>,
    pub(crate) report: Report,
}

/// Serves the script's connections under its policy, by as many workers on threads as it says.
pub(crate) fn serve_script<Ho: Host + 'static, Cl: Clock, Sp: Spawner>(
    rt: &Ho,
    alloc: Global,
    script: Script,
    clock: &mut Cl,
    spawner: &mut Sp,
) -> Result<ScriptRun, ReplayError>
    requires { is_listening (plan script) ≡ true }
    ensures starts { IfOk result (λ _. config_error (plan script).cors ≡ None) }
    ensures started { IfOk result (λ _. RoseBy (plan script).workers (Sp.starts spawner.old) (Sp.starts spawner.new)) }
    ensures runs { IfOk result (λ run. Runs ⟦<MemoryLink as Link>⟧ (plan script) run.done.entries.items run.report) }
    ensures refused { IfErr result (IsUnreplayed (plan script).cors (Rose (Sp.refusals spawner.old) (Sp.refusals spawner.new))) }
{
    // What the services answer; the check of loans takes only types that the function names.
    let _: PhantomData<Ended<MemoryLink>> = PhantomData;
    let factory = factory_of(alloc, &script)?;
    let server = server_of(alloc, &script)?.run(factory);
    let mut listeners = into_listeners(alloc, script.listeners)?;
    let mut done = KeepAll::new(alloc);
    let mut none = NoCommands::new();
    match server.serve(
        rt,
        alloc,
        &mut listeners,
        &mut none,
        clock,
        spawner,
        &mut done,
    ) {
        Ok(report) => Ok(ScriptRun { done, report }),
        Err(ServeError::Startup { error, .. }) => Err(ReplayError::Startup(policy_error(error))),
        Err(ServeError::Spawn { .. }) => Err(ReplayError::NoWorker),
        Err(ServeError::Memory) => Err(ReplayError::Startup(CorsInitError::Memory)),
        Err(ServeError::NoListener) => unreachable!(),
    }
}

// A server that is set as the script says.
fn server_of(alloc: Global, script: &Script) -> Result<ServerBuilder, AllocError>
    ensures { IfOk result (λ builder. settings_of builder ≡ settings_by (plan script.now)) }
{
    let settings = script.settings;
    let builder = server::new(alloc)?
        .workers(settings.workers)
        .ring(settings.ring)
        .retry_limit(settings.retry_limit)
        .max_concurrent_connections(settings.limit);
    Ok(builder)
}

// What makes the services of the script's connections: its handler under its policy.
fn factory_of(alloc: Global, script: &Script) -> Result<ReplayFactory, AllocError>
    ensures cors { IfOk result (λ factory. replay_builder factory ≡ (plan script.now).cors) }
    ensures site { IfOk result (λ factory. replay_site factory ≡ site_of (plan script.now)) }
{
    let cors = build_policy(alloc, &script.policy)?;
    ReplayFactory::new(alloc, cors, script.settings)
}

// Why the policy makes no services.
fn policy_error(error: HttpInitError<CorsInitError, Never, Never>) -> CorsInitError
    ensures { (builder : Builder Rule) → RefusesSite builder error → Refuses builder result }
{
    match error {
        HttpInitError::Service(error) => error,
        HttpInitError::Expect(_) | HttpInitError::Upgrade(_) | HttpInitError::Memory => {
            CorsInitError::Memory
        }
    }
}
