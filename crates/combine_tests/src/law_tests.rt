//! What the laws say of chains shows in their answers.
use crate::builds::{chained, handed, mapped, to_the_left, to_the_right};
use crate::numbers::{Dividing, Mending};
use crate::questions::Question;
use crate::services::{Fault, Faulty};
use crate::shown::hold;
use service_combine::ServiceExt;
use std::alloc::AllocError;
use std::test::Fail;

#[test]
fn chains_answer_alike_however_they_are_bracketed(rt: HostRuntime) -> Result<(), Fail> {
    let two = Dividing { by: 2 };
    let three = Dividing { by: 3 };
    let five = Dividing { by: 5 };
    let asked = [Question::Answers(90, Ok(3))];
    hold(
        &rt,
        &[
            to_the_left(&rt, two, three, five, &asked),
            to_the_right(&rt, two, three, five, &asked),
        ],
    )
}

// A number as it is.
fn same(number: u32) -> u32 {
    number
}

// Half of a number.
fn half(number: u32) -> u32 {
    number / 2
}

// Whether a service whose responses stay as they are, and are halved then, answers so.
fn halves_the_same(
    rt: &HostRuntime,
    questions: &[Question<u32, u32, Fault>],
) -> Result<bool, AllocError> {
    let once = Dividing { by: 1 }.map(rt.alloc(), same)?;
    mapped(rt, once, half, questions)
}

#[test]
fn two_maps_answer_as_one(rt: HostRuntime) -> Result<(), Fail> {
    let asked = [Question::Answers(8, Ok(4))];
    hold(
        &rt,
        &[
            halves_the_same(&rt, &asked),
            mapped(&rt, Dividing { by: 1 }, half, &asked),
        ],
    )
}

#[test]
fn an_error_passes_and_then_and_reaches_then(rt: HostRuntime) -> Result<(), Fail> {
    let faulty = Faulty { fault: Fault::Bad };
    let passed = [Question::Answers(8, Err(Fault::Bad))];
    let mended = [Question::Answers(8, Ok(7))];
    let mending = Mending {
        error: Fault::Bad,
        with: 7,
    };
    hold(
        &rt,
        &[
            chained(&rt, faulty, Dividing { by: 2 }, &passed),
            handed(&rt, faulty, mending, &mended),
        ],
    )
}
