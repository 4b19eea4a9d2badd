//! Answers that are looked at: by the definition, and by the connection however its bytes come.
use crate::serving::{MANY, Wanted, is_served, limits};
use crate::shown::holds;
use crate::test_link::Way;
use futures::test::MockTask;
use http_plain::answers;
use service_core::{How, Octets};
use std::alloc::{AllocError, AllocGlobal, Global};
use std::process::Abort;
use std::random::RandomSource;
use std::test::Fail;

// In which pieces the bytes come, and whether each is waited for.
const PIECES: [(usize, bool); 5] = [
    (4096, false),
    (4096, true),
    (1, false),
    (1, true),
    (7, true),
];

/// What the definition says that the connection of the bytes writes.
pub(crate) fn defined(alloc: Global, bytes: &[u8]) -> Result<Octets, AllocError> {
    answers(alloc, limits(), bytes)
}

/// Whether the connection writes this text, and ends as served, where its bytes come so.
pub(crate) fn is_written(
    task: &MockTask,
    alloc: Global,
    bytes: &[u8],
    way: Way,
    text: &[u8],
) -> Result<bool, AllocError> {
    let wanted = Wanted::Writes(Some(How::Served), text);
    is_served(task, alloc, (bytes, way, MANY), &wanted)
}

// The same however its bytes come.
fn is_always_written(
    task: &MockTask,
    alloc: Global,
    bytes: &[u8],
    text: &[u8],
) -> Result<bool, AllocError> {
    for (piece, pauses) in PIECES {
        if !is_written(task, alloc, bytes, Way::of(piece, pauses), text)? {
            return Ok(false);
        }
    }
    Ok(true)
}

/// Whether the definition says this, and the connection writes it however its bytes come.
pub(crate) fn is_answered(
    task: &MockTask,
    alloc: Global,
    bytes: &[u8],
    text: &[u8],
) -> Result<bool, AllocError> {
    match defined(alloc, bytes) {
        Ok(defined) => {
            Ok(defined.as_bytes() == text && is_always_written(task, alloc, bytes, text)?)
        }
        Err(error) => Err(error),
    }
}

// The same for each of the bytes and its answers.
fn are_answered(
    task: &MockTask,
    alloc: Global,
    rows: &[(&[u8], &[u8])],
) -> Result<bool, AllocError> {
    for (bytes, text) in rows {
        if !is_answered(task, alloc, bytes, text)? {
            return Ok(false);
        }
    }
    Ok(true)
}

/// Each of the bytes has the answers beside it.
pub(crate) fn answered<R: Abort + RandomSource + AllocGlobal>(
    rt: &R,
    rows: &[(&[u8], &[u8])],
) -> Result<(), Fail> {
    let task = MockTask::new(rt)?;
    holds(rt, are_answered(&task, rt.alloc(), rows))
}

// Whether each of the bytes has this answer.
fn are_answered_alike(
    task: &MockTask,
    alloc: Global,
    rows: &[&[u8]],
    text: &[u8],
) -> Result<bool, AllocError> {
    for bytes in rows {
        if !is_answered(task, alloc, bytes, text)? {
            return Ok(false);
        }
    }
    Ok(true)
}

/// Each of the bytes has this answer.
pub(crate) fn answered_alike<R: Abort + RandomSource + AllocGlobal>(
    rt: &R,
    rows: &[&[u8]],
    text: &[u8],
) -> Result<(), Fail> {
    let task = MockTask::new(rt)?;
    holds(rt, are_answered_alike(&task, rt.alloc(), rows, text))
}
