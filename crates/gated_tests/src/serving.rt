//! The run of the test.
use crate::flags::SharedFlags;
use crate::gate_factory::GateFactory;
use server::Server;
use server_commands::NoCommands;
use server_edge::ThreadSpawner;
use server_jobs::StepClock;
use server_run::{
    End, Entry, Host, KeepAll, ListenerStep, MemoryLink, MemoryListener, Outcome, ReadStep,
};
use service_core::{Ended, Octets, Peer};
use std::alloc::{AllocError, Global};
use std::marker::PhantomData;

// A link that gives these bytes, and then is at its end.
fn link(alloc: Global, name: u64, bytes: &[u8]) -> Result<MemoryLink, AllocError> {
    let reads = vec![in alloc; ReadStep::Give(Octets::of(alloc, bytes)?)]?;
    Ok(MemoryLink::new(alloc, name, Peer::Local, reads, Vec::new(alloc)))
}

// The listener that gives two connections, of one call each, and then ends.
fn listener(alloc: Global) -> Result<MemoryListener, AllocError> {
    let steps = vec![in alloc;
        ListenerStep::Give(link(alloc, 0, b"GET /0 HTTP/1.1\r\n\r\n")?),
        ListenerStep::Give(link(alloc, 1, b"GET /1 HTTP/1.1\r\n\r\n")?),
    ]?;
    Ok(MemoryListener::new(alloc, steps))
}

// A server of two workers that have one connection at most.
fn server(alloc: Global) -> Result<Server<GateFactory>, AllocError> {
    let flags = SharedFlags::new(alloc)?;
    let builder = server::new(alloc)?
        .workers(2)
        .max_concurrent_connections(1)
        .ring(1);
    Ok(builder.run(GateFactory { flags }))
}

// Whether a connection was served, and its call answered 200.
fn is_met(entry: &Entry<MemoryLink>) -> bool {
    entry.outcome == Outcome::Served && entry.link.written().starts_with(b"HTTP/1.1 200")
}

// Whether memory ran out for a connection.
fn lacked(entries: &[Entry<MemoryLink>]) -> bool {
    for entry in entries {
        if entry.outcome == Outcome::Memory {
            return true;
        }
    }
    false
}

// Whether both calls met, in a run that ended so.
fn told(end: End, entries: &[Entry<MemoryLink>]) -> Result<bool, AllocError> {
    if end == End::Memory || lacked(entries) {
        return Err(AllocError);
    }
    Ok(are_met(entries))
}

// Whether there are two connections, and that holds of each.
fn are_met(entries: &[Entry<MemoryLink>]) -> bool {
    for entry in entries {
        if !is_met(entry) {
            return false;
        }
    }
    entries.len() == 2
}

/// Whether both calls meet.
pub(crate) fn meet<Ho: Host + 'static>(rt: &Ho, alloc: Global) -> Result<bool, AllocError> {
    let _: PhantomData<Ended<MemoryLink>> = PhantomData;
    let server = server(alloc)?;
    let mut listeners = vec![in alloc; listener(alloc)?]?;
    let mut clock = StepClock::new(0, 500);
    let mut spawner = ThreadSpawner::new(alloc)?;
    let mut done = KeepAll::new(alloc);
    match server.serve(
        rt,
        alloc,
        &mut listeners,
        &mut NoCommands::new(),
        &mut clock,
        &mut spawner,
        &mut done,
    ) {
        Ok(report) => told(report.end, done.entries()),
        Err(_) => Err(AllocError),
    }
}
