//! Greets who connects to a TCP address, by a service of its own, on two threads.
#![tactic(auto)]

use command_line::{print, words_of};
use greeting_service::Greeters;
use server_bind::{Binder, CloseAll, Limited};
use server_commands::NoCommands;
use server_edge::{ReactorHost, SystemClock, ThreadSpawner};
use server_reactor::Reactor;
use server_run::Host;
use server_sockets::{MioBinder, SocketLink};
use service_core::Ended;
use std::alloc::Global;
use std::process::ExitCode;
use std::sync::Arc;

const USAGE: &str = "usage: example_socket ADDR N";

// Greets at the address until N peers have come, and tells how many of them were.
fn greet<Ho: Host + 'static>(rt: &Ho, alloc: Global, addr: &str, limit: u32) -> Option<u64> {
    // The proof of `serve` wants this type to be named.
    let _ended: Option<Ended<SocketLink>> = None;
    let reactor = Arc::new(alloc, Reactor::new(rt, alloc).ok()?).ok()?;
    let host = ReactorHost::over(rt.clone().ok()?, Arc::try_clone(&reactor).ok()?);
    let mut spawner = ThreadSpawner::over(alloc, Arc::try_clone(&reactor).ok()?).ok()?;
    let listener = MioBinder::over(reactor).tcp(&host, addr).ok()?;
    let builder = server::new(alloc).ok()?.workers(2);
    let mut listeners = Vec::new(alloc);
    let limited = Limited::new(listener, limit as u64);
    builder.listen(&mut listeners, limited).ok()?;
    let mut done = CloseAll::new();
    builder
        .run(Greeters)
        .serve(
            &host,
            alloc,
            &mut listeners,
            &mut NoCommands::new(),
            &mut SystemClock::new(&host),
            &mut spawner,
            &mut done,
        )
        .ok()?;
    Some(done.served())
}

fn main(rt: HostRuntime) -> ExitCode {
    let words = words_of(&rt).unwrap_or(Vec::new(rt.alloc()));
    let [addr, limit] = words.as_slice() else {
        return ExitCode::from(print(&rt, USAGE, 2));
    };
    let Ok(limit) = limit.parse::<u32>() else {
        return ExitCode::from(print(&rt, USAGE, 2));
    };
    let status = match greet(&rt, rt.alloc(), addr, limit) {
        Some(served) => println!(rt; "greeted {served}").map_or(1, |()| 0),
        None => print(&rt, "could not serve", 1),
    };
    ExitCode::from(status)
}
