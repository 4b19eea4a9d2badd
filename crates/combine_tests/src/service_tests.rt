//! What the combinators of services answer.
ghost use Rattle.std.specs.Prelude.{◌≡◌};

use crate::builds::{chained, handed, mapped, renamed};
use crate::questions::{Question, all_hold, both, built_holds, is, task};
use crate::services::{
    Awaking, Counting, Echo, Failure, Fault, Faulty, Obeying, Slow, Summing, Tagging, Tally,
    Unready, Word,
};
use crate::shown::{hold, holds};
use crate::through::{Through, Twelve, tripled};
use futures::Future;
use futures::test::MockTask;
use service_combine::{
    AndThenServiceResponse, Apply, MapErrFuture, MapFuture, ThenServiceResponse, apply_fn,
};
use service_core::{NoMemory, Ready, Service};
use std::alloc::AllocError;
use std::cell::Cell;
use std::test::Fail;

/// The text of a response.
fn fine(_: ()) -> &'static str {
    "ok"
}

/// The error of a layer for that of the one behind it.
fn failure(_: Fault) -> Failure {
    Failure::Mapped
}

#[test]
fn map_changes_each_response(rt: HostRuntime) -> Result<(), Fail> {
    let asked = [
        Question::Answers((), Ok("ok")),
        Question::Answers((), Ok("ok")),
        Question::IsReady(Ok(())),
    ];
    holds(&rt, mapped(&rt, Echo, fine, &asked))
}

#[test]
fn map_leaves_errors_as_they_are(rt: HostRuntime) -> Result<(), Fail> {
    let asked = [
        Question::Answers((), Err(Fault::Bad)),
        Question::IsReady(Err(Fault::Bad)),
    ];
    holds(&rt, mapped(&rt, Faulty { fault: Fault::Bad }, fine, &asked))
}

#[test]
fn map_err_changes_the_errors_of_calls_and_of_readiness(rt: HostRuntime) -> Result<(), Fail> {
    let asked = [
        Question::Answers((), Err(Failure::Mapped)),
        Question::IsReady(Err(Failure::Mapped)),
    ];
    holds(
        &rt,
        renamed(&rt, Faulty { fault: Fault::Bad }, failure, &asked),
    )
}

#[test]
fn map_err_leaves_responses_as_they_are(rt: HostRuntime) -> Result<(), Fail> {
    let asked = [Question::Answers(7u32, Ok(7)), Question::IsReady(Ok(()))];
    holds(&rt, renamed(&rt, Echo, failure, &asked))
}

/// Whether the second tags each response of the first, where each counts what it is asked.
fn tags(rt: &HostRuntime, one: &Tally, two: &Tally) -> Result<bool, AllocError> {
    let first = Counting::over(Echo, one);
    let second = Counting::over(Tagging { tag: Word::Srv2 }, two);
    let asked = [
        Question::Answers(Word::Srv1, Ok((Word::Srv1, Word::Srv2))),
        Question::IsReady(Ok(())),
    ];
    chained(rt, first, second, &asked)
}

#[test]
fn and_then_hands_each_response_to_the_second(rt: HostRuntime) -> Result<(), Fail> {
    let one = Tally::new();
    let two = Tally::new();
    hold(
        &rt,
        &[
            tags(&rt, &one, &two),
            Ok(one.polls.get() == 1),
            Ok(two.polls.get() == 1),
        ],
    )
}

/// Whether an error of the first is the answer, where the second counts what it is asked.
fn errs_at_once(rt: &HostRuntime, tally: &Tally) -> Result<bool, AllocError> {
    let first = Faulty { fault: Fault::Bad };
    let second = Counting::over(Echo, tally);
    let asked = [Question::Answers(7u32, Err(Fault::Bad))];
    chained(rt, first, second, &asked)
}

#[test]
fn and_then_does_not_call_the_second_after_an_error(rt: HostRuntime) -> Result<(), Fail> {
    let tally = Tally::new();
    hold(
        &rt,
        &[errs_at_once(&rt, &tally), Ok(tally.calls.get() == 0)],
    )
}

#[test]
fn and_then_answers_an_error_of_the_second(rt: HostRuntime) -> Result<(), Fail> {
    let second = Faulty {
        fault: Fault::Worse,
    };
    let asked = [
        Question::Answers(7u32, Err(Fault::Worse)),
        Question::IsReady(Err(Fault::Worse)),
    ];
    holds(&rt, chained(&rt, Echo, second, &asked))
}

/// Whether the second sums up each result of the first, where each counts what it is asked.
fn sums_up_each(rt: &HostRuntime, one: &Tally, two: &Tally) -> Result<bool, AllocError> {
    let first = Counting::over(Obeying, one);
    let second = Counting::over(Unready { service: Summing }, two);
    let asked = [
        Question::Answers(Ok(Word::Srv1), Ok((Word::Srv1, Word::Fine))),
        Question::Answers(Err(Fault::Bad), Ok((Word::Srv2, Word::Failed))),
        Question::IsReady(Err(Fault::Bad)),
    ];
    handed(rt, first, second, &asked)
}

/// Whether the second gets each result of the first, and each is asked once whether it is ready.
pub(crate) fn hands_each_result(rt: &HostRuntime) -> Result<bool, AllocError> {
    let one = Tally::new();
    let two = Tally::new();
    Ok(sums_up_each(rt, &one, &two)? && one.polls.get() == 1 && two.polls.get() == 1)
}

#[test]
fn then_hands_each_result_to_the_second(rt: HostRuntime) -> Result<(), Fail> {
    holds(&rt, hands_each_result(&rt))
}

/// Echoes, and is pending where it is first asked whether it is ready.
fn waking() -> Awaking<Echo> {
    Awaking {
        service: Echo,
        waits: Cell::new(1),
    }
}

#[test]
fn readiness_waits_for_the_first_where_the_second_is_ready(rt: HostRuntime) -> Result<(), Fail> {
    let asked: [Question<u32, u32, Fault>; 2] = [
        Question::ReadinessWaits,
        Question::IsReady(Ok(())),
    ];
    holds(&rt, chained(&rt, waking(), Echo, &asked))
}

#[test]
fn readiness_waits_for_the_second_where_the_first_is_ready(rt: HostRuntime) -> Result<(), Fail> {
    let asked: [Question<u32, u32, Fault>; 2] = [
        Question::ReadinessWaits,
        Question::IsReady(Ok(())),
    ];
    holds(&rt, chained(&rt, Echo, waking(), &asked))
}

#[test]
fn the_first_error_goes_before_the_second(rt: HostRuntime) -> Result<(), Fail> {
    let first = Faulty { fault: Fault::Bad };
    let second = Faulty {
        fault: Fault::Worse,
    };
    let asked = [
        Question::IsReady(Err(Fault::Bad)),
        Question::Answers(7u32, Err(Fault::Bad)),
    ];
    holds(&rt, chained(&rt, first, second, &asked))
}

#[test]
fn the_second_error_comes_while_the_first_waits(rt: HostRuntime) -> Result<(), Fail> {
    let second = Faulty {
        fault: Fault::Worse,
    };
    let asked: [Question<u32, u32, Fault>; 1] = [Question::IsReady(Err(Fault::Worse))];
    holds(&rt, chained(&rt, waking(), second, &asked))
}

#[test]
fn then_waits_for_the_first_and_errs_with_the_second(rt: HostRuntime) -> Result<(), Fail> {
    let second = Awaking {
        service: Unready { service: Obeying },
        waits: Cell::new(1),
    };
    let asked: [Question<u32, u32, Fault>; 2] = [
        Question::ReadinessWaits,
        Question::IsReady(Err(Fault::Bad)),
    ];
    holds(&rt, handed(&rt, waking(), second, &asked))
}

#[test]
fn readiness_is_forwarded_at_each_poll(rt: HostRuntime) -> Result<(), Fail> {
    let service = Awaking {
        service: Echo,
        waits: Cell::new(3),
    };
    let asked = [
        Question::ReadinessWaits,
        Question::ReadinessWaits,
        Question::ReadinessWaits,
        Question::IsReady(Ok(())),
    ];
    holds(&rt, mapped(&rt, service, fine, &asked))
}

/// Half of a number.
fn half(number: u32) -> u32 {
    number / 2
}

/// A service whose calls are pending at their first polls.
fn slow<S>(waits: u32, service: S) -> Slow<S>
    ensures { result.service ≡ service }
{
    Slow { service, waits }
}

/// Whether a service that halves answers so after some polls.
fn halves(
    rt: &HostRuntime,
    waits: u32,
    question: Question<u32, u32, Fault>,
) -> Result<bool, AllocError> {
    mapped(rt, slow(waits, Echo), half, &[question])
}

/// Whether a service that echoes, and has its errors changed, answers so after some polls.
fn echoes(
    rt: &HostRuntime,
    waits: u32,
    question: Question<u32, u32, Failure>,
) -> Result<bool, AllocError> {
    renamed(rt, slow(waits, Echo), failure, &[question])
}

/// Whether two services that echo answer so, one behind the other, each after some polls.
fn echo_in_turn(
    rt: &HostRuntime,
    waits: (u32, u32),
    question: Question<u32, u32, Fault>,
) -> Result<bool, AllocError> {
    chained(rt, slow(waits.0, Echo), slow(waits.1, Echo), &[question])
}

/// Whether a service that obeys answers so behind one that echoes after some polls.
fn obeys(
    rt: &HostRuntime,
    waits: u32,
    question: Question<u32, u32, Fault>,
) -> Result<bool, AllocError> {
    handed(rt, slow(waits, Echo), Obeying, &[question])
}

/// Whether a service that errs after some polls, and has its errors changed, answers so.
fn errs(
    rt: &HostRuntime,
    waits: u32,
    question: Question<u32, u32, Failure>,
) -> Result<bool, AllocError> {
    let faulty = Faulty { fault: Fault::Bad };
    renamed(rt, slow(waits, faulty), failure, &[question])
}

/// Whether a service that sums up answers so behind one that errs, each after a poll.
fn sums_up(
    rt: &HostRuntime,
    question: Question<Word, (Word, Word), Fault>,
) -> Result<bool, AllocError> {
    let faulty = Faulty { fault: Fault::Bad };
    handed(rt, slow(1, faulty), slow(1, Summing), &[question])
}

#[test]
fn a_call_is_pending_while_a_part_waits(rt: HostRuntime) -> Result<(), Fail> {
    let summed = Question::AnswersThird(Word::Srv, Ok((Word::Srv2, Word::Failed)));
    hold(
        &rt,
        &[
            halves(&rt, 2, Question::AnswersThird(8, Ok(4))),
            errs(&rt, 2, Question::AnswersThird(8, Err(Failure::Mapped))),
            echo_in_turn(&rt, (1, 1), Question::AnswersThird(8, Ok(8))),
            sums_up(&rt, summed),
        ],
    )
}

#[test]
fn a_call_that_waits_can_be_dropped(rt: HostRuntime) -> Result<(), Fail> {
    hold(
        &rt,
        &[
            halves(&rt, 1, Question::Waits(8)),
            echoes(&rt, 1, Question::Waits(8)),
            echo_in_turn(&rt, (0, 1), Question::Waits(8)),
            obeys(&rt, 1, Question::Waits(8)),
            halves(&rt, 0, Question::Answers(8, Ok(4))),
        ],
    )
}

/// Whether a future gives this at its first poll, where a task polls it.
fn is_given<F, R, E>(
    task: &MockTask,
    mut future: F,
    want: &Result<R, E>,
) -> Result<bool, AllocError>
where
    F: Future<Output = Result<R, E>> + Drop,
    R: PartialEq + Drop,
    E: PartialEq + NoMemory,
    requires { F.can_poll future }
{
    is(task.poll(&mut future), want)
}

/// Whether a future gives this at its first poll.
fn gives<F, R, E>(rt: &HostRuntime, future: F, want: Result<R, E>) -> Result<bool, AllocError>
where
    F: Future<Output = Result<R, E>> + Drop,
    R: PartialEq + Drop,
    E: PartialEq + NoMemory,
    requires { F.can_poll future }
{
    match task(rt) {
        Ok(task) => is_given(&task, future, &want),
        Err(_) => Err(AllocError),
    }
}

/// Whether this comes of a call whose closure could not be shared.
fn map_is_refused(rt: &HostRuntime, want: Result<u32, Fault>) -> Result<bool, AllocError> {
    let mapped: MapFuture<Ready<Result<u32, Fault>>, fn(u32) -> u32> = MapFuture::refused();
    gives(rt, mapped, want)
}

/// Whether this comes of a call whose closure over errors could not be shared.
fn map_err_is_refused(rt: &HostRuntime, want: Result<u32, Failure>) -> Result<bool, AllocError> {
    let renamed: MapErrFuture<Ready<Result<u32, Fault>>, fn(Fault) -> Failure> =
        MapErrFuture::refused();
    gives(rt, renamed, want)
}

/// Whether this comes of a call of two services that could not be shared, one behind the other.
fn and_then_is_refused(rt: &HostRuntime, want: Result<u32, Fault>) -> Result<bool, AllocError> {
    let chained: AndThenServiceResponse<Echo, Echo, u32> = AndThenServiceResponse::refused();
    gives(rt, chained, want)
}

/// Whether this comes of a call of two services that could not be shared, each result of the first handed to the second.
fn then_is_refused(rt: &HostRuntime, want: Result<u32, Fault>) -> Result<bool, AllocError> {
    let handed: ThenServiceResponse<Echo, Obeying, u32> = ThenServiceResponse::refused();
    gives(rt, handed, want)
}

#[test]
fn parts_that_cannot_be_shared_are_want_of_memory(rt: HostRuntime) -> Result<(), Fail> {
    hold(
        &rt,
        &[
            map_is_refused(&rt, Err(Fault::Memory)),
            map_err_is_refused(&rt, Err(Failure::NoRoom)),
            and_then_is_refused(&rt, Err(Fault::Memory)),
            then_is_refused(&rt, Err(Fault::Memory)),
        ],
    )
}

/// Asks for a quarter of a number.
fn asks_a_quarter(req: u32, service: &Echo) -> Ready<Result<u32, Fault>>
    ensures { ⟦<Ready<Result<u32, Fault>> as Future>⟧.can_poll result }
{
    service.call(req / 4)
}

/// Whether a service answers so once it is built, and a copy of it too.
fn answers_as_its_copy<S>(
    rt: &HostRuntime,
    service: Result<S, AllocError>,
    question: Question<u32, u32, Fault>,
) -> Result<bool, AllocError>
where
    S: Service<u32, Response = u32, Error = Fault> + Clone + Drop,
    requires { (made : _) → S.can_call made }
{
    let service = service?;
    let asked = [question];
    let copy: Result<_, _> = service.clone();
    both(
        all_hold(rt, &service, &asked),
        built_holds(rt, copy, &asked),
    )
}

/// Whether a service that is lent to a closure, which asks for a quarter, answers so, and a copy of it too.
pub(crate) fn quarters(
    rt: &HostRuntime,
    question: Question<u32, u32, Fault>,
) -> Result<bool, AllocError> {
    let applied: Result<Apply<_, _, u32, u32, u32, Fault>, _> = apply_fn(
        rt.alloc(),
        Echo,
        asks_a_quarter,
    );
    answers_as_its_copy(rt, applied, question)
}

#[test]
fn each_service_answers_the_same_each_way(rt: HostRuntime) -> Result<(), Fail> {
    hold(
        &rt,
        &[
            halves(&rt, 0, Question::AnswersEachWay(8, Ok(4))),
            echoes(&rt, 0, Question::AnswersEachWay(8, Ok(8))),
            echo_in_turn(&rt, (0, 0), Question::AnswersEachWay(8, Ok(8))),
            obeys(&rt, 0, Question::AnswersEachWay(8, Ok(8))),
            quarters(&rt, Question::AnswersEachWay(8, Ok(2))),
        ],
    )
}

/// Twelve times `tripled`.
fn tripled_twelve_times(number: u32) -> u32 {
    number.wrapping_mul(531_441).wrapping_add(265_720)
}

// Whether twelve maps answer as one, and both so.
fn twelve_answer_as_one(rt: &HostRuntime, req: u32) -> Result<bool, AllocError> {
    let asked = [Question::Answers(req, Ok(tripled_twelve_times(req)))];
    Ok(Twelve::holds(rt, Echo, &asked)? && mapped(rt, Echo, tripled_twelve_times, &asked)?)
}

#[test]
fn twelve_maps_answer_as_one(rt: HostRuntime) -> Result<(), Fail> {
    hold(
        &rt,
        &[
            twelve_answer_as_one(&rt, 0),
            twelve_answer_as_one(&rt, 1),
            twelve_answer_as_one(&rt, 1000),
            twelve_answer_as_one(&rt, u32::MAX),
        ],
    )
}

/// Asks for a word beside nothing.
fn asks_beside(word: Word, service: &Counting<'_, Echo>) -> Ready<Result<(Word, ()), Fault>>
    ensures { ⟦<Ready<Result<(Word, ()), Fault>> as Future>⟧.can_poll result }
{
    service.call((word, ()))
}

/// Whether a service that counts what it is asked answers so, lent to a closure that asks beside nothing.
fn answers_beside(rt: &HostRuntime, tally: &Tally) -> Result<bool, AllocError> {
    let service = Counting::over(Echo, tally);
    let applied: Result<Apply<_, _, Word, (Word, ()), (Word, ()), Fault>, _> = apply_fn(
        rt.alloc(),
        service,
        asks_beside,
    );
    let asked = [
        Question::Answers(Word::Srv, Ok((Word::Srv, ()))),
        Question::IsReady(Ok(())),
    ];
    built_holds(rt, applied, &asked)
}

#[test]
fn apply_fn_hands_its_closure_the_request_and_the_service(rt: HostRuntime) -> Result<(), Fail> {
    let tally = Tally::new();
    hold(
        &rt,
        &[
            answers_beside(&rt, &tally),
            Ok(tally.polls.get() == 1),
            Ok(tally.calls.get() == 1),
        ],
    )
}
