//! Copies answer as their originals.
use crate::copies::{begun, chained, copied, handed};
use crate::numbers::{Dividing, Mending};
use crate::questions::Question;
use crate::service_tests::quarters;
use crate::services::Fault;
use crate::shown::{hold, holds};
use service_combine::ServiceExt;
use std::alloc::AllocError;
use std::test::Fail;

#[test]
fn a_clone_answers_as_its_original(rt: HostRuntime) -> Result<(), Fail> {
    let halving = Dividing { by: 2 };
    let divided = [Question::Answers(42, Ok(7))];
    let mending = Mending {
        error: Fault::Bad,
        with: 7,
    };
    let mended = [Question::Answers(42, Ok(21))];
    hold(
        &rt,
        &[
            chained(&rt, halving, Dividing { by: 3 }, &divided),
            handed(&rt, halving, mending, &mended),
        ],
    )
}

// Half of a number.
fn half(number: u32) -> u32 {
    number / 2
}

// An error as it is.
fn same(fault: Fault) -> Fault {
    fault
}

// Whether a copy of a service whose responses are halved answers so.
fn copy_halves(
    rt: &HostRuntime,
    questions: &[Question<u32, u32, Fault>],
) -> Result<bool, AllocError> {
    let mapped = ServiceExt::map(Dividing { by: 1 }, rt.alloc(), half);
    copied(rt, mapped, questions)
}

// Whether a copy of a service whose errors are changed answers so.
fn copy_is_renamed(
    rt: &HostRuntime,
    questions: &[Question<u32, u32, Fault>],
) -> Result<bool, AllocError> {
    let renamed = ServiceExt::map_err(Dividing { by: 1 }, rt.alloc(), same);
    copied(rt, renamed, questions)
}

#[test]
fn copies_of_changed_services_answer_as_their_originals(rt: HostRuntime) -> Result<(), Fail> {
    let asked = [Question::Answers(8, Ok(8))];
    hold(
        &rt,
        &[
            copy_halves(&rt, &[Question::Answers(8, Ok(4))]),
            copy_is_renamed(&rt, &asked),
            begun(&rt, Dividing { by: 1 }, &asked),
        ],
    )
}

#[test]
fn a_copy_of_apply_answers_as_its_original(rt: HostRuntime) -> Result<(), Fail> {
    holds(&rt, quarters(&rt, Question::Answers(8, Ok(2))))
}
