//! Runs that are stopped at one turn after the other.
use serve_stage::{
    Gated, PLAIN, Plan, Stage, Told, are_numbered, count_of, entry_at, listener_of, that_ends,
    that_hangs, that_waits,
};
use server_commands::CommandStep;
use server_core::Command;
use server_run::{
    Accepted, End, Entry, Host, Listener, ListenerStep, MemoryLink, MemoryListener, Outcome,
};
use std::alloc::{AllocError, Global};
use std::sync::Arc;
use std::sync::atomic::AtomicU64;
use std::test::Fail;

// So often it is run, each time with a stop in another turn.
const RUNS: u64 = 200;

// So many connections each of two listeners has.
const EACH: u64 = 100;

// Eight workers that have room for 80 connections together, and no time after a stop.
const TIGHT: Plan = Plan {
    workers: 8,
    limit: 10,
    ring: 4,
    timeout: 0,
    step: 0,
    ..PLAIN
};

// The name of the link at that place of a listener.
fn name_at(token: usize, place: u64) -> u64 {
    (token as u64).saturating_mul(1_000).saturating_add(place)
}

// Whether the link at that place never answers: one in four.
fn hangs_at(place: u64) -> bool {
    place % 4 == 0
}

// The link at that place of a listener.
fn link_at(alloc: Global, token: usize, place: u64) -> Result<MemoryLink, AllocError> {
    let name = name_at(token, place);
    if hangs_at(place) {
        that_hangs(alloc, name)
    } else if place % 2 == 1 {
        Ok(that_ends(alloc, name))
    } else {
        that_waits(alloc, name)
    }
}

// A listener that gives a connection in every other turn.
fn listener(alloc: Global, token: usize) -> Result<MemoryListener, AllocError> {
    let mut steps = Vec::new(alloc);
    if token == 1 {
        steps.push(ListenerStep::NotYet)?;
    }
    for place in 0..EACH {
        steps.push(ListenerStep::Give(link_at(alloc, token, place)?))?;
        steps.push(ListenerStep::NotYet)?;
        steps.push(ListenerStep::NotYet)?;
    }
    listener_of(alloc, steps)
}

// Two such listeners, which give in turn.
fn two(alloc: Global) -> Result<Vec<MemoryListener>, AllocError> {
    let mut listeners = Vec::new(alloc);
    listeners.push(listener(alloc, 0)?)?;
    listeners.push(listener(alloc, 1)?)?;
    Ok(listeners)
}

// A stop in the turn that comes so many behind the one in which the first connection is being served.
fn stop_after(
    alloc: Global,
    begun: Arc<AtomicU64>,
    turns: u64,
    graceful: bool,
) -> Result<Gated, AllocError> {
    let mut steps = Vec::new(alloc);
    for _ in 0..turns {
        steps.push(CommandStep::NotYet)?;
    }
    steps.push(CommandStep::Give(Command::Stop { graceful }))?;
    let told = Told {
        after: 1,
        steps: &steps,
    };
    Gated::new(alloc, begun, &told)
}

// Whether that became of a connection that may become of it. The link of an entry tells whether it never answers.
fn may_be(entry: &Entry<MemoryLink>) -> Result<bool, AllocError> {
    match entry.outcome {
        Outcome::Memory => Err(AllocError),
        Outcome::Stopped { .. } => Ok(true),
        Outcome::Served => Ok(entry.token == 0 && !hangs_at(entry.place)),
        Outcome::Upgraded => Ok(entry.token == 1 && !hangs_at(entry.place)),
        Outcome::ReadFault | Outcome::WriteFault | Outcome::Lost { .. } => Ok(false),
    }
}

// Whether that became of all connections that may become of them.
fn all_may_be(entries: &[Entry<MemoryLink>]) -> Result<bool, AllocError> {
    for entry in entries {
        if !may_be(entry)? {
            return Ok(false);
        }
    }
    Ok(true)
}

// Whether the entries of a listener are those of its first connections, each with its link.
fn are_first(entries: &[Entry<MemoryLink>], token: usize) -> bool {
    for place in 0..count_of(entries, token) {
        match entry_at(entries, token, place) {
            Some(entry) if entry.link.name() == name_at(token, place) => {}
            Some(_) | None => return false,
        }
    }
    true
}

// Whether each entry is of one of the two listeners.
fn are_of_two(entries: &[Entry<MemoryLink>]) -> bool {
    let both = count_of(entries, 0).saturating_add(count_of(entries, 1));
    both == entries.len() as u64
}

// The name of the next link that a listener has, if it has one more.
fn next_name(listener: &mut MemoryListener) -> Option<u64> {
    for _ in 0..1_000 {
        match listener.accept() {
            Accepted::Got(link) => return Some(link.name()),
            Accepted::NotYet => {}
            Accepted::Skipped | Accepted::Failed | Accepted::Ended => return None,
        }
    }
    None
}

// Whether a listener still has the connections from that place on, and no more.
fn has_rest(listener: &mut MemoryListener, token: usize, from: u64) -> bool {
    for place in from..EACH {
        if next_name(listener) != Some(name_at(token, place)) {
            return false;
        }
    }
    next_name(listener).is_none()
}

// Whether the listener of that token still has the connections from that place on, and no more.
fn rest_stands(stage: &mut Stage, token: usize, from: u64) -> bool {
    match stage.listeners.get_mut(token) {
        Some(listener) => has_rest(listener, token, from),
        None => false,
    }
}

// Whether each connection is in one entry or with its listener.
fn is_whole(stage: &mut Stage) -> Result<bool, AllocError> {
    let entries = stage.done.entries();
    let counts = [count_of(entries, 0), count_of(entries, 1)];
    let has_entries = all_may_be(entries)?
        && are_numbered(entries)
        && are_of_two(entries)
        && are_first(entries, 0)
        && are_first(entries, 1);
    Ok(has_entries && rest_stands(stage, 0, counts[0]) && rest_stands(stage, 1, counts[1]))
}

// Whether a run with a stop after so many turns hands on each connection once.
fn hands_on_once<Ho: Host + 'static>(
    rt: &Ho,
    alloc: Global,
    turns: u64,
) -> Result<bool, AllocError> {
    let graceful = turns % 2 == 0;
    let begun = Arc::new(alloc, AtomicU64::new(0))?;
    let mut commands = stop_after(alloc, Arc::try_clone(&begun)?, turns, graceful)?;
    let server = TIGHT.server(alloc, begun)?;
    let mut stage = Stage::new(alloc, &TIGHT, two(alloc)?)?;
    let run = stage.run(rt, server, &mut commands);
    match run {
        Ok(report) if report.end == (End::Stopped { graceful }) => is_whole(&mut stage),
        Ok(report) if report.end == End::Memory => Err(AllocError),
        Ok(_) => Ok(false),
        Err(_) => Err(AllocError),
    }
}

#[test]
fn each_connection_is_handed_on_once_whenever_the_stop_comes(rt: HostRuntime) -> Result<(), Fail> {
    for turns in 0..RUNS {
        assert!(rt; hands_on_once(&rt, rt.alloc(), turns)?);
    }
    Ok(())
}
