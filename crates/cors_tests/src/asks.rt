//! What a builder without rules is asked.
use crate::asking::{Asked, is_answered};
use crate::building::{Built, Call, built};
use crate::copy_tests::copy_gives;
use crate::policies::{Checks, cors_says, is_ready_under, is_refused_under};
use crate::shown::every;
use cors_answer::Cors;
use cors_policy::{ConfigError, NoRule};
use futures::test::MockTask;
use std::alloc::{AllocError, Global};

/// What is asked of a builder, and what has to come.
#[derive(Drop)]
pub(crate) enum Ask<'a> {
    /// This text answers a request.
    Answers(Asked<'a>, &'a str),
    /// The builder has no error, and this text answers a request.
    AnswersWithoutError(Asked<'a>, &'a str),
    /// The copy of a service under the policy, left alone, answers a request by this status.
    CopyAnswers(Asked<'a>, u16),
    /// The policy says so of a request.
    Says(Asked<'a>, Checks),
    /// This is the error that the builder keeps.
    Keeps(Option<ConfigError>),
    /// No service is put under the policy, because of this error.
    IsRefused(ConfigError),
    /// The builder has an error of its configuration.
    HasConfigError,
    /// A service under the policy is ready.
    IsReady,
}

// Whether the builder has no error, and this text answers a request.
fn has_no_error_and_gives(
    task: &MockTask,
    alloc: Global,
    cors: &Cors<NoRule>,
    asked: Asked,
    text: &str,
) -> Result<bool, AllocError> {
    every(&[
        Ok(cors.error().is_none()),
        is_answered(task, alloc, cors, asked, text),
    ])
}

// Whether what is asked is so.
fn is_so_of(
    task: &MockTask,
    alloc: Global,
    cors: &Cors<NoRule>,
    ask: &Ask<'_>,
) -> Result<bool, AllocError> {
    match ask {
        Ask::Answers(asked, text) => is_answered(task, alloc, cors, *asked, text),
        Ask::AnswersWithoutError(asked, text) => {
            has_no_error_and_gives(task, alloc, cors, *asked, text)
        }
        Ask::CopyAnswers(asked, status) => copy_gives(task, alloc, cors, (*asked, *status)),
        Ask::Says(asked, checks) => cors_says(alloc, cors, *asked, *checks),
        Ask::Keeps(error) => Ok(cors.error() == *error),
        Ask::IsRefused(error) => is_refused_under(alloc, cors, *error),
        Ask::HasConfigError => Ok(cors.config_error().is_some()),
        Ask::IsReady => is_ready_under(task, alloc, cors),
    }
}

// The same of a builder that was made.
fn is_so_under(
    task: &MockTask,
    alloc: Global,
    cors: &Built,
    ask: &Ask<'_>,
) -> Result<bool, AllocError> {
    match cors {
        Ok(cors) => is_so_of(task, alloc, cors, ask),
        Err(error) => Err(*error),
    }
}

// The same with a task that polls. Where none can be made, that is want of memory.
fn is_so_by_a_task(rt: &HostRuntime, cors: &Built, ask: &Ask<'_>) -> Result<bool, AllocError> {
    match MockTask::new(rt) {
        Ok(task) => {
            let shown = is_so_under(&task, rt.alloc(), cors, ask);
            drop(task);
            shown
        }
        Err(_) => Err(AllocError),
    }
}

/// Whether what is asked is so of a builder, which is dropped.
pub(crate) fn is_so(rt: &HostRuntime, cors: Built, ask: &Ask<'_>) -> Result<bool, AllocError> {
    let shown = is_so_by_a_task(rt, &cors, ask);
    drop(cors);
    shown
}

/// Whether what is asked is so of a builder after the calls.
pub(crate) fn is_so_after(
    rt: &HostRuntime,
    calls: &[Call],
    ask: &Ask<'_>,
) -> Result<bool, AllocError> {
    is_so(rt, built(rt.alloc(), calls), ask)
}

/// Whether this text answers a request under a policy without rules.
pub(crate) fn answers(
    rt: &HostRuntime,
    calls: &[Call],
    asked: Asked,
    text: &str,
) -> Result<bool, AllocError> {
    is_so_after(rt, calls, &Ask::Answers(asked, text))
}
