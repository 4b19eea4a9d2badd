//! What becomes of requests to a service that answers 204.
use crate::asking::{Verb, response_under};
use crate::building::Call::{AnyHeader, AnyMethod, NoPreflight};
use crate::building::{Call, ruled};
use crate::inner::Inner;
use crate::policies::RustLang;
use crate::shown::{every, hold};
use cors_answer::Cors;
use futures::test::MockTask;
use http1_plain::Response;
use std::alloc::{AllocError, Global};
use std::test::Fail;

/// Whether there is a response of this status.
pub(crate) fn is_of_status(response: &Option<Response>, status: u16) -> bool {
    match response {
        Some(response) => response.status() == status,
        None => false,
    }
}

/// The same of an answer.
pub(crate) fn has_answer_status(
    answer: &Result<Option<Response>, AllocError>,
    status: u16,
) -> Result<bool, AllocError> {
    match answer {
        Ok(response) => Ok(is_of_status(response, status)),
        Err(error) => Err(*error),
    }
}

// Whether the answer under a policy has the status.
fn gives_status(
    task: &MockTask,
    alloc: Global,
    cors: &Cors<RustLang>,
    row: (Verb, u16),
) -> Result<bool, AllocError> {
    let fields = [
        ("Origin", "https://a.rust-lang.org"),
        ("Access-Control-Request-Method", "POST"),
    ];
    let inner = Inner {
        alloc,
        is_empty: true,
    };
    let answer = response_under(task, inner, cors, (row.0, &fields));
    let shown = has_answer_status(&answer, row.1);
    drop(answer);
    shown
}

fn gives_status_under(
    task: &MockTask,
    alloc: Global,
    cors: &Result<Cors<RustLang>, AllocError>,
    row: (Verb, u16),
) -> Result<bool, AllocError> {
    match cors {
        Ok(cors) => gives_status(task, alloc, cors, row),
        Err(error) => Err(*error),
    }
}

// Whether the answer has the status where the origin is allowed by a rule, and what the calls allow.
fn has_status(
    task: &MockTask,
    alloc: Global,
    calls: &[Call],
    row: (Verb, u16),
) -> Result<bool, AllocError> {
    let cors = ruled(alloc, RustLang, calls);
    let shown = gives_status_under(task, alloc, &cors, row);
    drop(cors);
    shown
}

// Whether only a preflight is answered here.
fn answers_preflights(task: &MockTask, alloc: Global) -> Result<bool, AllocError> {
    let calls = [AnyMethod, AnyHeader];
    every(&[
        has_status(task, alloc, &calls, (Verb::Options, 200)),
        has_status(task, alloc, &calls, (Verb::Get, 204)),
    ])
}

// Whether a preflight is handed on where that is disabled.
fn hands_preflights_on(task: &MockTask, alloc: Global) -> Result<bool, AllocError> {
    let calls = [AnyMethod, AnyHeader, NoPreflight];
    has_status(task, alloc, &calls, (Verb::Options, 204))
}

#[test]
fn a_preflight_is_answered_here_unless_that_is_disabled(rt: HostRuntime) -> Result<(), Fail> {
    let task = MockTask::new(&rt)?;
    let alloc = rt.alloc();
    let shown = [
        answers_preflights(&task, alloc),
        hands_preflights_on(&task, alloc),
    ];
    drop(task);
    hold(&rt, &shown)
}
