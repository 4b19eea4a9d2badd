//! The listeners of the tests.
use server_run::{ListenerStep, MemoryLink, MemoryListener};
use service_core::Peer;
use std::alloc::{AllocError, Global};

/// What a listener answers.
#[derive(Clone, Copy)]
pub(crate) enum Answer {
    /// So many connections, one after the other.
    Give(u64),
    /// Nothing has come.
    NotYet,
    /// One connection failed.
    Skip,
    /// The listener failed.
    Fail,
}

/// The name of the link at a place of a listener.
pub(crate) fn name_of(token: usize, place: u64) -> u64 {
    (token as u64).saturating_mul(1_000).saturating_add(place)
}

/// The link at a place of a listener, which gives nothing.
pub(crate) fn link_at(alloc: Global, token: usize, place: u64) -> MemoryLink {
    MemoryLink::new(
        alloc,
        name_of(token, place),
        Peer::Unknown,
        Vec::new(alloc),
        Vec::new(alloc),
    )
}

// How often a listener answers so.
fn times(answer: Answer) -> u64 {
    match answer {
        Answer::Give(count) => count,
        Answer::NotYet | Answer::Skip | Answer::Fail => 1,
    }
}

// What a listener does for an answer, where a connection has this place.
fn step_of(alloc: Global, token: usize, place: u64, answer: Answer) -> ListenerStep {
    match answer {
        Answer::Give(_) => ListenerStep::Give(link_at(alloc, token, place)),
        Answer::NotYet => ListenerStep::NotYet,
        Answer::Skip => ListenerStep::Skip,
        Answer::Fail => ListenerStep::Fail,
    }
}

// Adds what a listener does for an answer, where so many connections were given before.
fn add(
    alloc: Global,
    token: usize,
    given: u64,
    answer: Answer,
    steps: &mut Vec<ListenerStep>,
) -> Result<(), AllocError> {
    for k in 0..times(answer) {
        steps.push(step_of(alloc, token, given.saturating_add(k), answer))?;
    }
    Ok(())
}

// What a listener does.
fn steps_of(
    alloc: Global,
    token: usize,
    answers: &[Answer],
) -> Result<Vec<ListenerStep>, AllocError> {
    let mut steps = Vec::new(alloc);
    let mut given: u64 = 0;
    for answer in answers {
        add(alloc, token, given, *answer, &mut steps)?;
        if let Answer::Give(count) = *answer {
            given = given.saturating_add(count);
        }
    }
    Ok(steps)
}

#[tactic(auto, using(crate::proofs::Links::few_links))]
// A listener that does so, at most a thousand steps.
fn listener_of(alloc: Global, steps: Vec<ListenerStep>) -> Result<MemoryListener, AllocError> {
    if steps.len() > 1_000 {
        return Err(AllocError);
    }
    Ok(MemoryListener::new(alloc, steps))
}

// The listener with that token.
fn listener(alloc: Global, token: usize, answers: &[Answer]) -> Result<MemoryListener, AllocError> {
    match steps_of(alloc, token, answers) {
        Ok(steps) => listener_of(alloc, steps),
        Err(error) => Err(error),
    }
}

/// So many listeners that answer so.
pub(crate) fn listeners(
    alloc: Global,
    count: usize,
    answers: &[Answer],
) -> Result<Vec<MemoryListener>, AllocError> {
    let mut listeners = Vec::new(alloc);
    for token in 0..count {
        listeners.push(listener(alloc, token, answers)?)?;
    }
    Ok(listeners)
}
