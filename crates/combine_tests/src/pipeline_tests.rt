//! What pipelines of services answer.
use crate::pipelines::chained;
use crate::questions::{Question, built_holds};
use crate::service_tests::hands_each_result;
use crate::services::{Counting, Echo, Failure, Fault, Faulty, Tagging, Tally, Word};
use crate::shown::{hold, holds};
use service_combine::{Pipeline, pipeline};
use std::alloc::AllocError;
use std::test::Fail;

// A word for a number.
fn parity(number: u32) -> &'static str {
    if number % 2 == 0 { "even" } else { "odd" }
}

// Whether a pipeline that answers a word for each number answers so.
fn tells_parity(
    rt: &HostRuntime,
    questions: &[Question<u32, &'static str, Fault>],
) -> Result<bool, AllocError> {
    let chain: Pipeline<Echo, u32> = pipeline(Echo);
    built_holds(rt, chain.map(rt.alloc(), parity), questions)
}

#[test]
fn a_pipeline_maps_responses(rt: HostRuntime) -> Result<(), Fail> {
    let asked = [
        Question::Answers(8, Ok("even")),
        Question::Answers(7, Ok("odd")),
        Question::IsReady(Ok(())),
    ];
    holds(&rt, tells_parity(&rt, &asked))
}

// The error of a layer for that of the one behind it.
fn failure(_: Fault) -> Failure {
    Failure::Mapped
}

// Whether a pipeline that errs, and has its errors changed, answers so.
fn errs(rt: &HostRuntime, questions: &[Question<(), (), Failure>]) -> Result<bool, AllocError> {
    let chain: Pipeline<Faulty, ()> = pipeline(Faulty { fault: Fault::Bad });
    built_holds(rt, chain.map_err(rt.alloc(), failure), questions)
}

#[test]
fn a_pipeline_maps_errors(rt: HostRuntime) -> Result<(), Fail> {
    let asked = [
        Question::Answers((), Err(Failure::Mapped)),
        Question::IsReady(Err(Failure::Mapped)),
    ];
    holds(&rt, errs(&rt, &asked))
}

// Whether the second tags each response of the first, where each counts what it is asked.
fn tags(rt: &HostRuntime, one: &Tally, two: &Tally) -> Result<bool, AllocError> {
    let first = Counting::over(Echo, one);
    let second = Counting::over(Tagging { tag: Word::Srv2 }, two);
    let asked = [
        Question::Answers(Word::Srv1, Ok((Word::Srv1, Word::Srv2))),
        Question::IsReady(Ok(())),
    ];
    chained(rt, first, second, &asked)
}

#[test]
fn a_pipeline_hands_each_response_on(rt: HostRuntime) -> Result<(), Fail> {
    let one = Tally::new();
    let two = Tally::new();
    hold(
        &rt,
        &[
            tags(&rt, &one, &two),
            Ok(one.polls.get() == 1),
            Ok(two.polls.get() == 1),
        ],
    )
}

#[test]
fn a_pipeline_hands_each_result_on(rt: HostRuntime) -> Result<(), Fail> {
    holds(&rt, hands_each_result(&rt))
}

#[test]
fn a_pipeline_answers_the_same_where_it_is_shared(rt: HostRuntime) -> Result<(), Fail> {
    let asked = [Question::AnswersEachWay(7, Ok("odd"))];
    holds(&rt, tells_parity(&rt, &asked))
}
