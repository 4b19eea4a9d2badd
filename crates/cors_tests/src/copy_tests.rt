//! Copies of a service under a policy.
use crate::asking::{Asked, Made, Verb, response_by, service_under};
use crate::asks::{Ask, is_so_after};
use crate::building::Call::{Block, Origin};
use crate::empty_answers::has_answer_status;
use crate::inner::Inner;
use crate::shown::hold;
use cors_answer::{Cors, CorsMiddleware};
use cors_policy::NoRule;
use futures::test::MockTask;
use std::alloc::{AllocError, Global};
use std::test::Fail;

// A copy of the service.
fn copied(service: &CorsMiddleware<Inner, NoRule>) -> Made<NoRule> {
    match service.clone() {
        Ok(copy) => Ok(copy),
        Err(error) => Err(error.into()),
    }
}

fn copy_of(service: &Made<NoRule>) -> Made<NoRule> {
    match service {
        Ok(service) => copied(service),
        Err(error) => Err(*error),
    }
}

// A copy of the service under the policy, which is dropped.
fn copy_under(alloc: Global, cors: &Cors<NoRule>) -> Made<NoRule> {
    let inner = Inner {
        alloc,
        is_empty: false,
    };
    let service = service_under(cors, inner);
    let copy = copy_of(&service);
    drop(service);
    copy
}

fn answer_has_status(
    task: &MockTask,
    alloc: Global,
    service: &Made<NoRule>,
    row: (Asked, u16),
) -> Result<bool, AllocError> {
    let answer = response_by(task, alloc, service, row.0);
    let shown = has_answer_status(&answer, row.1);
    drop(answer);
    shown
}

/// Whether the copy of a service under the policy, left alone, answers a request by this status.
pub(crate) fn copy_gives(
    task: &MockTask,
    alloc: Global,
    cors: &Cors<NoRule>,
    row: (Asked, u16),
) -> Result<bool, AllocError> {
    let copy = copy_under(alloc, cors);
    let shown = answer_has_status(task, alloc, &copy, row);
    drop(copy);
    shown
}

// The same under a policy that blocks all origins but one.
fn blocks(rt: &HostRuntime, row: (Asked, u16)) -> Result<bool, AllocError> {
    let calls = [Origin("https://a.example"), Block];
    is_so_after(rt, &calls, &Ask::CopyAnswers(row.0, row.1))
}

#[test]
fn a_copy_answers_under_the_same_policy(rt: HostRuntime) -> Result<(), Fail> {
    let granted = [("Origin", "https://a.example")];
    let other = [("Origin", "https://b.example")];
    let shown = [
        blocks(&rt, ((Verb::Get, &granted), 200)),
        blocks(&rt, ((Verb::Get, &other), 400)),
    ];
    hold(&rt, &shown)
}
