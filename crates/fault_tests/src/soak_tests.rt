//! Runs in which services fault at random.
use crate::faults::{Faults, Rule};
use crate::running::run;
use crate::tally::Tally;
use serve_stage::{PLAIN, Plan, listener_of, that_ends, that_waits};
use server_run::{
    End, Entry, Host, KeepAll, ListenerState, ListenerStep, MemoryLink, MemoryListener, Outcome,
    Report,
};
use std::alloc::{AllocError, Global};
use std::test::Fail;

// So many runs there are, each with draws of its own.
const RUNS: u64 = 20;

// The seed of the first run. Each other one has the next number.
const SEED: u64 = 2_024;

// A service errs at one readiness in so many.
const ONE_IN: u64 = 64;

const LISTENERS: usize = 10;

// So many connections each listener has.
const EACH: u64 = 1_000;

// All connections of a run.
const ALL: usize = 10_000;

// The names of the first links of the listeners.
const FIRST_NAMES: [u64; LISTENERS] = [
    0, 1_000, 2_000, 3_000, 4_000, 5_000, 6_000, 7_000, 8_000, 9_000,
];

const WORKERS: usize = 4;

// How the server of a run is set.
const SOAK: Plan = Plan {
    workers: WORKERS,
    limit: 64,
    ring: 16,
    ..PLAIN
};

// The name of the link at that place of a listener.
fn name_at(token: usize, place: u64) -> u64 {
    match FIRST_NAMES.get(token) {
        Some(first) => first.saturating_add(place),
        None => u64::MAX,
    }
}

// The link at that place of a listener. Every other one is not at its end at once.
fn link_at(alloc: Global, token: usize, place: u64) -> Result<MemoryLink, AllocError> {
    let name = name_at(token, place);
    if place % 2 == 0 {
        return Ok(that_ends(alloc, name));
    }
    that_waits(alloc, name)
}

// The listener of a token.
fn listener(alloc: Global, token: usize) -> Result<MemoryListener, AllocError> {
    let mut steps = Vec::new(alloc);
    for place in 0..EACH {
        steps.push(ListenerStep::Give(link_at(alloc, token, place)?))?;
    }
    listener_of(alloc, steps)
}

// All listeners of a run.
fn all_listeners(alloc: Global) -> Result<Vec<MemoryListener>, AllocError> {
    let mut listeners = Vec::new(alloc);
    for token in 0..LISTENERS {
        listeners.push(listener(alloc, token)?)?;
    }
    Ok(listeners)
}

// Marks a number. False says that it has no place there, or was marked before.
fn mark(places: &mut Vec<bool>, number: u64) -> bool {
    match places.get_mut(number as usize) {
        Some(marked) if !*marked => {
            *marked = true;
            true
        }
        _ => false,
    }
}

// Whether that became of a connection that may become of it.
fn may_be(outcome: Outcome) -> Result<bool, AllocError> {
    match outcome {
        Outcome::Served => Ok(true),
        Outcome::Lost {
            worker: Some(worker),
        } => Ok(worker < WORKERS),
        Outcome::Memory => Err(AllocError),
        Outcome::Lost { worker: None }
        | Outcome::ReadFault
        | Outcome::WriteFault
        | Outcome::Upgraded
        | Outcome::Stopped { .. } => Ok(false),
    }
}

// Whether an entry is of a connection of a listener, with its link, and tells what may become of it.
fn is_right(entry: &Entry<MemoryLink>) -> Result<bool, AllocError> {
    let is_of_listener = entry.token < LISTENERS && entry.place < EACH;
    let is_named = entry.link.name() == name_at(entry.token, entry.place);
    Ok(is_of_listener && is_named && may_be(entry.outcome)?)
}

// Whether each connection is in one entry, and each has a number of its own.
fn are_whole(alloc: Global, entries: &[Entry<MemoryLink>]) -> Result<bool, AllocError> {
    let mut named = vec![in alloc; false; ALL]?;
    let mut numbered = vec![in alloc; false; ALL]?;
    for entry in entries {
        if !is_right(entry)? {
            return Ok(false);
        }
        if !mark(&mut named, entry.link.name()) || !mark(&mut numbered, entry.serial) {
            return Ok(false);
        }
    }
    Ok(entries.len() == ALL)
}

// Whether each listener has ended.
fn all_ended(report: &Report) -> bool {
    for state in &report.listeners {
        if *state != ListenerState::Ended {
            return false;
        }
    }
    report.listeners.len() == LISTENERS
}

// Whether a run with these draws hands on each connection once.
fn hands_on_once<Ho: Host + 'static>(
    rt: &Ho,
    alloc: Global,
    seed: u64,
    tally: &Tally,
) -> Result<bool, AllocError> {
    let rule = Rule::Random {
        seed,
        one_in: ONE_IN,
    };
    let faults = Faults::new(rule, tally.share()?, 0);
    let mut listeners = all_listeners(alloc)?;
    let mut done = KeepAll::new(alloc);
    match run(rt, alloc, &SOAK, faults, &mut listeners, &mut done) {
        Ok(report) if report.end == End::Memory => Err(AllocError),
        Ok(report) => {
            let is_drained = report.end == End::Drained && all_ended(&report);
            Ok(is_drained && are_whole(alloc, done.entries())?)
        }
        Err(_) => Err(AllocError),
    }
}

// Whether all runs do, and workers ended by faults.
fn all_hand_on_once<Ho: Host + 'static>(rt: &Ho, alloc: Global) -> Result<bool, AllocError> {
    let tally = Tally::new(alloc)?;
    for number in 0..RUNS {
        if !hands_on_once(rt, alloc, SEED.saturating_add(number), &tally)? {
            return Ok(false);
        }
    }
    Ok(tally.refused() > 0)
}

#[test]
fn each_connection_stands_in_one_entry_whatever_workers_fault(rt: HostRuntime) -> Result<(), Fail> {
    assert!(rt; all_hand_on_once(&rt, rt.alloc())?);
    Ok(())
}
