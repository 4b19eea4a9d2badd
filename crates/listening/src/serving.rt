//! The connections of a listener, served.
ghost use Rattle.std.specs.Prelude.{◌≡◌, ◌≤◌, ◌<◌, ◌^◌, ◌∷◌, [], IfOk, IfErr};
ghost use Rattle.service_core.specs.Counts.{Rose};
ghost use Rattle.cors_rules.specs.Building.{permissive};
ghost use Rattle.script_service.specs.Factories.{RefusesSite, replay_builder, replay_site};
ghost use Rattle.server.specs.Servers.{factory_of, server_settings};
ghost use Rattle.server.specs.Settings.{default_settings};
ghost use Rattle.server.specs.Starting.{RoseBy};
ghost use Rattle.listening.specs.Listening.{Hears, IsUnserved};
ghost use Rattle.listening.specs.Sites.{listen_site};
ghost use Rattle.listening.specs.declared.listen_error.ListenError.TheVariants.{Memory};

use crate::heard::Heard;
use crate::listen_error::ListenError;
use cors_answer::{Cors, CorsInitError};
use http_flow::{HttpInitError, Never};
use script::Script;
use script_service::ReplayFactory;
use server::Server;
use server_bind::{CloseAll, Limited};
use server_commands::NoCommands;
use server_jobs::{Clock, Spawner};
use server_run::{Host, Listener, ServeError};
use service_core::Ended;
use std::alloc::{AllocError, Global};
use std::marker::PhantomData;

/// Serves the connections of the listener, at most so many, on so many workers, and closes their links.
pub(crate) fn serve_listener<Ho, Li, Cl, Sp>(
    rt: &Ho,
    alloc: Global,
    listener: Li,
    limit: u64,
    workers: usize,
    clock: &mut Cl,
    spawner: &mut Sp,
) -> Result<Heard, ListenError>
where
    Ho: Host + 'static,
    Li: Listener<Link: Send + 'static>,
    Li::Link: 'static,
    Cl: Clock,
    Sp: Spawner,
    requires few { limit < 2 ^ 48 }
    requires workers { (1 ≤ workers) × (workers ≤ 512) }
    ensures started { IfOk result (λ _. RoseBy workers (Sp.starts spawner.old) (Sp.starts spawner.new)) }
    ensures hears { IfOk result (Hears Li.left Li.rest Li.Link.Link limit listener) }
    ensures unserved { IfErr result (IsUnserved (Rose (Sp.refusals spawner.old) (Sp.refusals spawner.new))) }
{
    // What the services answer; the check of loans takes only types that the function names.
    let _: PhantomData<Ended<Li::Link>> = PhantomData;
    let Ok(server) = hello_server(alloc, workers) else {
        return Err(ListenError::Memory);
    };
    let Ok(mut listeners) = one(alloc, Limited::new(listener, limit)) else {
        return Err(ListenError::Memory);
    };
    let mut done = CloseAll::new();
    let mut none = NoCommands::new();
    match server.serve(
        rt,
        alloc,
        &mut listeners,
        &mut none,
        clock,
        spawner,
        &mut done,
    ) {
        Ok(report) => Ok(Heard {
            connections: done.entries(),
            served: done.served(),
            end: report.end,
        }),
        Err(ServeError::Startup { error, .. }) => Err(startup_error(error)),
        Err(ServeError::Spawn { .. }) => Err(ListenError::NoWorker),
        Err(ServeError::Memory) => Err(ListenError::Memory),
        Err(ServeError::NoListener) => unreachable!(),
    }
}

// A list of this item alone.
fn one<T: Drop>(alloc: Global, item: T) -> Result<Vec<T>, AllocError>
    ensures { IfOk result (λ list. list.items ≡ item ∷ []) }
{
    let mut list = Vec::with_capacity(alloc, 1)?;
    list.push_reserved(item);
    Ok(list)
}

// The server of `hello` under the permissive policy on so many workers, with the default settings else.
fn hello_server(alloc: Global, workers: usize) -> Result<Server<ReplayFactory>, AllocError>
    requires { (1 ≤ workers) × (workers ≤ 512) }
    ensures builder { IfOk result (λ server. replay_builder (factory_of server) ≡ permissive) }
    ensures site { IfOk result (λ server. replay_site (factory_of server) ≡ listen_site) }
    ensures settings { IfOk result (λ server. server_settings server ≡ record default_settings { workers = workers }) }
{
    let cors = Cors::permissive(alloc)?;
    let script = Script::new(alloc);
    let factory = ReplayFactory::new(alloc, cors, script.settings)?;
    Ok(server::new(alloc)?.workers(workers).run(factory))
}

// Why the services could not be made: memory ran out, since the policy is not refused.
fn startup_error(error: HttpInitError<CorsInitError, Never, Never>) -> ListenError
    requires { RefusesSite permissive error }
    ensures { result ≡ Memory }
{
    match error {
        HttpInitError::Service(CorsInitError::Config(_)) => unreachable!(),
        HttpInitError::Service(CorsInitError::Memory)
        | HttpInitError::Expect(_)
        | HttpInitError::Upgrade(_)
        | HttpInitError::Memory => ListenError::Memory,
    }
}
