//! The listeners of a run.
use crate::links::{that_ends, that_hangs};
use server_run::{ListenerStep, MemoryListener};
use std::alloc::{AllocError, Global};

/// What a listener answers.
#[derive(Clone, Copy)]
pub enum Answer {
    /// So many connections, one after the other.
    Give(u64),
    /// So many connections whose peers never send anything.
    Hang(u64),
    /// Nothing has come.
    NotYet,
    /// Nothing has come, so many times.
    Wait(u64),
    /// One connection failed.
    Skip,
    /// The listener failed.
    Fail,
}

// The name of the link that a listener gives at a step.
fn name_at(token: usize, step: usize) -> u64 {
    (token as u64)
        .saturating_mul(100)
        .saturating_add(step as u64)
}

// How often a listener answers so.
fn times(answer: Answer) -> u64 {
    match answer {
        Answer::Give(count) | Answer::Hang(count) | Answer::Wait(count) => count,
        Answer::NotYet | Answer::Skip | Answer::Fail => 1,
    }
}

// What a listener does at a step, for an answer.
fn step_of(alloc: Global, name: u64, answer: Answer) -> Result<ListenerStep, AllocError> {
    match answer {
        Answer::Give(_) => Ok(ListenerStep::Give(that_ends(alloc, name))),
        Answer::Hang(_) => Ok(ListenerStep::Give(that_hangs(alloc, name)?)),
        Answer::NotYet | Answer::Wait(_) => Ok(ListenerStep::NotYet),
        Answer::Skip => Ok(ListenerStep::Skip),
        Answer::Fail => Ok(ListenerStep::Fail),
    }
}

// What a listener does.
fn steps_of(
    alloc: Global,
    token: usize,
    answers: &[Answer],
) -> Result<Vec<ListenerStep>, AllocError> {
    let mut steps = Vec::new(alloc);
    for answer in answers {
        for _ in 0..times(*answer) {
            let name = name_at(token, steps.len());
            steps.push(step_of(alloc, name, *answer)?)?;
        }
    }
    Ok(steps)
}

/// A listener that does so, at most a thousand steps.
#[tactic(auto, using(crate::proofs::ListenerSteps::few_links))]
pub fn listener_of(alloc: Global, steps: Vec<ListenerStep>) -> Result<MemoryListener, AllocError> {
    if steps.len() > 1_000 {
        return Err(AllocError);
    }
    Ok(MemoryListener::new(alloc, steps))
}

/// Listeners that answer so, each by its token.
pub(crate) fn listeners(
    alloc: Global,
    answers: &[&[Answer]],
) -> Result<Vec<MemoryListener>, AllocError> {
    let mut listeners = Vec::new(alloc);
    for token in 0..answers.len() {
        let steps = steps_of(alloc, token, answers[token])?;
        listeners.push(listener_of(alloc, steps)?)?;
    }
    Ok(listeners)
}
