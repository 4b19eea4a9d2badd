//! Answers each HTTP request at a TCP address, on two threads, until one asks for `/stop`.
#![tactic(auto)]

ghost use Rattle.std.specs.Prelude.{◌≤◌, IfSome, vec_len};

use command_line::{print, words_of};
use server::ServerBuilder;
use server_bind::{Binder, CloseAll};
use server_edge::{ReactorHost, SystemClock, ThreadSpawner};
use server_reactor::Reactor;
use server_run::Host;
use server_sockets::{MioBinder, SocketLink, SocketListener};
use service_core::Ended;
use std::alloc::Global;
use std::process::ExitCode;
use std::sync::Arc;
use stoppable_service::{StopHandle, Stoppables};

const USAGE: &str = "usage: example_stop ADDR";

// What listens at the address.
fn listeners_at<Ho: Host>(
    rt: &Ho,
    alloc: Global,
    builder: &ServerBuilder,
    reactor: Arc<Reactor>,
    addr: &str,
) -> Option<Vec<SocketListener>>
    ensures few { IfSome result (λ listeners. vec_len listeners ≤ 64) }
{
    let listener = MioBinder::over(reactor).tcp(rt, addr).ok()?;
    let mut listeners = Vec::new(alloc);
    match builder.listen(&mut listeners, listener) {
        Ok(_) => Some(listeners),
        Err(_) => None,
    }
}

// Answers at the address until a request stops it, and tells of what was handed back.
fn answer<Ho: Host + 'static>(rt: &Ho, alloc: Global, addr: &str) -> Option<CloseAll> {
    // The proof of `serve` wants this type to be named.
    let _ended: Option<Ended<SocketLink>> = None;
    let reactor = Arc::new(alloc, Reactor::new(rt, alloc).ok()?).ok()?;
    let host = ReactorHost::over(rt.clone().ok()?, Arc::try_clone(&reactor).ok()?);
    let mut spawner = ThreadSpawner::over(alloc, Arc::try_clone(&reactor).ok()?).ok()?;
    let builder = server::new(alloc).ok()?.workers(2);
    let mut listeners = listeners_at(&host, alloc, &builder, reactor, addr)?;
    let mut commands = builder.handle_commands(rt).ok()?;
    let stop = StopHandle::new(rt.clone().ok()?, builder.handle().ok()?);
    let server = builder.run(Stoppables::new(Arc::new(alloc, stop).ok()?));
    let mut done = CloseAll::new();
    server
        .serve(
            &host,
            alloc,
            &mut listeners,
            &mut commands,
            &mut SystemClock::new(&host),
            &mut spawner,
            &mut done,
        )
        .ok()?;
    Some(done)
}

fn main(rt: HostRuntime) -> ExitCode {
    let words = words_of(&rt).unwrap_or(Vec::new(rt.alloc()));
    let [addr] = words.as_slice() else {
        return ExitCode::from(print(&rt, USAGE, 2));
    };
    let status = match answer(&rt, rt.alloc(), addr) {
        Some(done) => {
            let (entries, served) = (done.entries(), done.served());
            println!(rt; "handed back {entries}, served {served}").map_or(1, |()| 0)
        }
        None => print(&rt, "could not serve", 1),
    };
    ExitCode::from(status)
}
