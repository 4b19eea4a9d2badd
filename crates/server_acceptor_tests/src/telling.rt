//! What a test shows.
use crate::act::Act;
use crate::answer::Answer;
use crate::plan::Plan;
use crate::stage::Stage;
use futures::test::MockTask;
use server_commands::CommandStep;
use std::alloc::{AllocError, AllocGlobal, Global};
use std::process::Abort;
use std::random::RandomSource;
use std::test::Fail;

/// What a test takes of the system.
pub(crate) trait Given: AllocGlobal + RandomSource {}

impl<R: AllocGlobal + RandomSource> Given for R {}

// The same beside a task.
fn made_tells(
    task: &MockTask,
    alloc: Global,
    plan: Plan,
    steps: &[CommandStep],
    answers: &[Answer],
    acts: &[Act],
    wanted: &[u8],
) -> Result<bool, AllocError> {
    match Stage::new(alloc, &plan, steps, answers) {
        Ok(mut stage) => {
            let told = stage.tells(task, acts, wanted);
            drop(stage);
            told
        }
        Err(error) => Err(error),
    }
}

/// Whether an acceptor by the plan, over listeners that answer so, tells this where all of that is done, and no command comes.
pub(crate) fn tells<R: Given>(
    rt: &R,
    plan: Plan,
    answers: &[Answer],
    acts: &[Act],
    wanted: &[u8],
) -> Result<bool, AllocError> {
    tells_told(rt, plan, &[], answers, acts, wanted)
}

/// The same where commands come so.
pub(crate) fn tells_told<R: Given>(
    rt: &R,
    plan: Plan,
    steps: &[CommandStep],
    answers: &[Answer],
    acts: &[Act],
    wanted: &[u8],
) -> Result<bool, AllocError> {
    match MockTask::new(rt) {
        Ok(task) => made_tells(&task, rt.alloc(), plan, steps, answers, acts, wanted),
        Err(_) => Err(AllocError),
    }
}

/// The test goes on where this holds.
pub(crate) fn holds<R: Abort>(rt: &R, shown: Result<bool, AllocError>) -> Result<(), Fail> {
    assert!(rt; shown?);
    Ok(())
}
