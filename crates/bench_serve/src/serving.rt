//! Runs of the server.
use crate::asking_link::AskingLink;
use crate::crowd::Crowd;
use crate::failure::Failure;
use crate::size::Size;
use script::{Script, build_policy};
use script_service::ReplayFactory;
use server::Server;
use server_commands::NoCommands;
use server_edge::{SystemClock, ThreadSpawner};
use server_run::{End, Entry, Host, KeepAll, Outcome};
use service_core::Ended;
use std::alloc::{AllocError, Global};
use std::marker::PhantomData;
use std::time::{Clock as TimeSource, Instant};

/// What a run came to.
#[derive(Clone, Copy)]
pub struct Work {
    /// How many connections were served.
    pub connections: u64,
    /// How many bytes were written on them.
    pub written: u64,
    /// How many microseconds it took.
    pub micros: u64,
}

// What makes the services: the default handler of a script, under its default policy.
fn factory(alloc: Global) -> Result<ReplayFactory, AllocError> {
    let script = Script::new(alloc);
    let cors = build_policy(alloc, &script.policy)?;
    ReplayFactory::new(alloc, cors, script.settings)
}

// A server with so many workers.
fn server_of(alloc: Global, workers: u16) -> Result<Server<ReplayFactory>, Failure> {
    if workers == 0 || workers > 512 {
        return Err(Failure::Wrong);
    }
    let builder = server::new(alloc)?.workers(workers as usize);
    Ok(builder.run(factory(alloc)?))
}

// Serves a crowd, and keeps what comes back.
fn serve<Ho: Host + TimeSource + 'static>(
    rt: &Ho,
    alloc: Global,
    server: Server<ReplayFactory>,
    size: Size,
    done: &mut KeepAll<AskingLink>,
) -> Result<(), Failure> {
    // The proof of `serve` wants this type to be named.
    let _: PhantomData<Ended<AskingLink>> = PhantomData;
    let crowd = Crowd::new(
        size.connections,
        size.requests,
        size.idle,
        SystemClock::new(rt),
    );
    let mut listeners = Vec::new(alloc);
    let Ok(()) = listeners.push(crowd) else {
        return Err(Failure::Memory);
    };
    let mut clock = SystemClock::new(rt);
    let mut spawner = ThreadSpawner::new(alloc)?;
    let mut none = NoCommands::new();
    match server.serve(
        rt,
        alloc,
        &mut listeners,
        &mut none,
        &mut clock,
        &mut spawner,
        done,
    ) {
        Ok(report) if report.end == End::Drained => Ok(()),
        _ => Err(Failure::Wrong),
    }
}

// What came back, each of it served.
fn counted(entries: &[Entry<AskingLink>], micros: u64) -> Result<Work, Failure> {
    let mut work = Work {
        connections: 0,
        written: 0,
        micros,
    };
    for entry in entries {
        if entry.outcome != Outcome::Served {
            return Err(Failure::Wrong);
        }
        work.connections = work.connections.saturating_add(1);
        work.written = work.written.saturating_add(entry.link.written());
    }
    Ok(work)
}

/// Serves as much as the size says.
pub fn served<Ho: Host + TimeSource + 'static>(
    rt: &Ho,
    alloc: Global,
    size: Size,
) -> Result<Work, Failure> {
    let server = server_of(alloc, size.workers)?;
    let mut done = KeepAll::new(alloc);
    let Ok(begun) = Instant::now(rt) else {
        return Err(Failure::NoTime);
    };
    serve(rt, alloc, server, size, &mut done)?;
    let Ok(took) = begun.elapsed(rt) else {
        return Err(Failure::NoTime);
    };
    let micros = u64::try_from(took.as_micros()).unwrap_or(u64::MAX);
    counted(done.entries(), micros)
}
