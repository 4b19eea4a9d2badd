//! Programs over services.
ghost use Rattle.std.specs.Prelude.{◌≡◌, IfOk};

use crate::builds::{built_renamed, handed, to_the_left};
use crate::numbers::{Adding, Limited, Mending};
use crate::questions::{Question, all_hold, both};
use crate::services::{Awaking, Counting, Echo, Failure, Fault, Faulty, Slow, Tally};
use crate::shown::{hold, holds};
use futures::Future;
use service_combine::{Apply, Pipeline, ServiceExt, apply_fn, pipeline};
use service_core::{NoMemory, Ready, Service};
use std::alloc::AllocError;
use std::cell::Cell;
use std::rc::Rc;
use std::test::Fail;

/// Why a gateway gives no page.
#[derive(Clone, Copy, Drop, PartialEq)]
enum Denied {
    Behind,
    Before,
    NoRoom,
}

impl NoMemory for Denied {
    ghost use Rattle.combine_tests.specs.declared.service_programs.Denied.TheVariants.{NoRoom};

    ghost refusal = { NoRoom };

    fn no_memory() -> Denied {
        Denied::NoRoom
    }
}

// Asks for ten times a number.
fn asks_ten_times(req: u32, service: &Adding) -> Ready<Result<u32, Fault>>
    ensures { ⟦<Ready<Result<u32, Fault>> as Future>⟧.can_poll result }
{
    service.call(req.wrapping_mul(10))
}

// Ten times a number.
fn ten_times(number: u32) -> u32 {
    number.wrapping_mul(10)
}

// The error of a layer for that of the one behind it.
fn failure(_: Fault) -> Failure {
    Failure::Mapped
}

// Whether a service answers so with a fallback behind it once it is built.
fn with_fallback<S>(
    rt: &HostRuntime,
    service: Result<S, AllocError>,
    row: (u32, u32),
) -> Result<bool, AllocError>
where
    S: Service<u32, Response = u32, Error = Failure> + Drop,
    requires { IfOk service S.can_call }
{
    let fallback = Mending {
        error: Failure::Mapped,
        with: 404,
    };
    handed(
        rt,
        service?,
        fallback,
        &[Question::Answers(row.0, Ok(row.1))],
    )
}

// Whether a pipeline answers so with a limit and a fallback behind it.
fn with_limit<S>(
    rt: &HostRuntime,
    chain: Result<Pipeline<S, u32>, AllocError>,
    row: (u32, u32),
) -> Result<bool, AllocError>
where
    S: Service<u32, Response = u32, Error = Failure> + Drop,
    requires { IfOk chain ⟦<Pipeline<S, u32> as Service<u32>>⟧.can_call }
{
    let limit = Limited {
        limit: 500,
        step: 3,
        error: Failure::Mapped,
    };
    match chain {
        Ok(chain) => with_fallback(rt, chain.and_then(rt.alloc(), limit), row),
        Err(_) => Err(AllocError),
    }
}

// Whether a pipeline answers so with its errors changed, a limit and a fallback behind it.
fn with_own_errors<S>(
    rt: &HostRuntime,
    chain: Result<Pipeline<S, u32>, AllocError>,
    row: (u32, u32),
) -> Result<bool, AllocError>
where
    S: Service<u32, Response = u32, Error = Fault> + Drop,
    requires { IfOk chain ⟦<Pipeline<S, u32> as Service<u32>>⟧.can_call }
{
    match chain {
        Ok(chain) => with_limit(rt, chain.map_err(rt.alloc(), failure), row),
        Err(_) => Err(AllocError),
    }
}

// Whether a service answers so under four middlewares more.
fn under_four<S>(rt: &HostRuntime, service: S, row: (u32, u32)) -> Result<bool, AllocError>
where
    S: Service<u32, Response = u32, Error = Fault> + Drop,
    requires { S.can_call service }
{
    with_own_errors(rt, pipeline(service).map(rt.alloc(), ten_times), row)
}

// Whether a service that adds answers so under five middlewares.
fn through_five(rt: &HostRuntime, row: (u32, u32)) -> Result<bool, AllocError> {
    let applied: Apply<_, _, u32, u32, u32, Fault> = apply_fn(
        rt.alloc(),
        Adding::by(1),
        asks_ten_times,
    )?;
    under_four(rt, applied, row)
}

#[test]
fn five_middlewares_each_leave_their_mark(rt: HostRuntime) -> Result<(), Fail> {
    hold(
        &rt,
        &[
            through_five(&rt, (2, 213)),
            through_five(&rt, (4, 413)),
            through_five(&rt, (5, 404)),
        ],
    )
}

// A gateway's word for an error of a layer.
fn word_for(failure: Failure) -> Denied {
    match failure {
        Failure::Mapped => Denied::Behind,
        Failure::NoRoom => Denied::Before,
    }
}

// Whether a gateway says so of a request, each layer in its own words.
fn in_three_layers<S, T>(
    rt: &HostRuntime,
    behind: S,
    before: T,
    want: Result<u32, Denied>,
) -> Result<bool, AllocError>
where
    S: Service<u32, Response = u32, Error = Failure> + Drop,
    T: Service<u32, Response = u32, Error = Failure> + Drop,
    requires behind { S.can_call behind }
    requires before { T.can_call before }
{
    let asked = [Question::Answers(7, want)];
    built_renamed(rt, behind.and_then(rt.alloc(), before), word_for, &asked)
}

// Whether a gateway says so of a request once the service behind and the one before are built.
fn built_in_three_layers<S, T>(
    rt: &HostRuntime,
    behind: Result<S, AllocError>,
    before: Result<T, AllocError>,
    want: Result<u32, Denied>,
) -> Result<bool, AllocError>
where
    S: Service<u32, Response = u32, Error = Failure> + Drop,
    T: Service<u32, Response = u32, Error = Failure> + Drop,
    requires behind { IfOk behind S.can_call }
    requires before { IfOk before T.can_call }
{
    in_three_layers(rt, behind?, before?, want)
}

// The error of the service before for each fault.
fn no_room(_: Fault) -> Failure {
    Failure::NoRoom
}

// Whether a gateway says so over services with faults, each with its errors changed.
fn both_renamed<S, T>(
    rt: &HostRuntime,
    behind: S,
    before: T,
    want: Result<u32, Denied>,
) -> Result<bool, AllocError>
where
    S: Service<u32, Response = u32, Error = Fault> + Drop,
    T: Service<u32, Response = u32, Error = Fault> + Drop,
    requires behind { S.can_call behind }
    requires before { T.can_call before }
{
    let behind = behind.map_err(rt.alloc(), failure);
    built_in_three_layers(rt, behind, before.map_err(rt.alloc(), no_room), want)
}

#[test]
fn each_layer_changes_errors_to_its_own(rt: HostRuntime) -> Result<(), Fail> {
    let faulty = Faulty { fault: Fault::Bad };
    hold(
        &rt,
        &[
            both_renamed(&rt, faulty, Echo, Err(Denied::Behind)),
            both_renamed(&rt, Echo, faulty, Err(Denied::Before)),
            both_renamed(&rt, Echo, Echo, Ok(7)),
        ],
    )
}

// One more.
fn one_more(number: u32) -> u32 {
    number.wrapping_add(1)
}

// Whether a countdown is seen through two combinators.
fn counts_down_through_two<S>(rt: &HostRuntime, service: S) -> Result<bool, AllocError>
where
    S: Service<u32, Response = u32, Error = Fault> + Drop,
    requires { S.can_call service }
{
    let asked = [
        Question::ReadinessWaits,
        Question::ReadinessWaits,
        Question::ReadinessWaits,
        Question::IsReady(Ok(())),
        Question::AnswersThird(7, Ok(8)),
    ];
    built_renamed(rt, service.map(rt.alloc(), one_more), failure, &asked)
}

#[test]
fn a_countdown_is_seen_through_two_combinators(rt: HostRuntime) -> Result<(), Fail> {
    let counting_down = Awaking {
        service: Slow {
            service: Echo,
            waits: 2,
        },
        waits: Cell::new(3),
    };
    holds(&rt, counts_down_through_two(&rt, counting_down))
}

// Twice a number.
fn twice(number: u32) -> u32 {
    number.wrapping_mul(2)
}

// A gateway's word for each fault.
fn behind(_: Fault) -> Denied {
    Denied::Behind
}

// Whether two services answer so in turn: the first, the second, and the first again.
fn answer_in_turn<A, B>(rt: &HostRuntime, first: &A, second: &B) -> Result<bool, AllocError>
where
    A: Service<u32, Response = u32, Error = Fault> + Drop,
    B: Service<u32, Response = u32, Error = Denied> + Drop,
    requires first { A.can_call first.now }
    requires second { B.can_call second.now }
{
    let once = all_hold(rt, first, &[Question::Answers(7, Ok(16))]);
    let other = all_hold(rt, second, &[Question::Answers(7, Ok(8))]);
    let again = all_hold(rt, first, &[Question::Answers(8, Ok(18))]);
    both(once, both(other, again))
}

// Whether two services answer so in turn once both are built.
fn built_answer_in_turn<A, B>(
    rt: &HostRuntime,
    first: Result<A, AllocError>,
    second: Result<B, AllocError>,
) -> Result<bool, AllocError>
where
    A: Service<u32, Response = u32, Error = Fault> + Drop,
    B: Service<u32, Response = u32, Error = Denied> + Drop,
    requires first { IfOk first A.can_call }
    requires second { IfOk second B.can_call }
{
    let first = first?;
    let second = second?;
    answer_in_turn(rt, &first, &second)
}

// Whether two pipelines over parts answer so in turn.
fn in_two_pipelines<S>(rt: &HostRuntime, one: S, other: S) -> Result<bool, AllocError>
where
    S: Service<u32, Response = u32, Error = Fault> + Drop,
    requires one { S.can_call one }
    requires other { S.can_call other }
{
    let first = pipeline(one).map(rt.alloc(), twice);
    built_answer_in_turn(rt, first, pipeline(other).map_err(rt.alloc(), behind))
}

// Whether two pipelines over one service answer so in turn.
fn over_one(rt: &HostRuntime, shared: &Rc<Adding>) -> Result<bool, AllocError> {
    in_two_pipelines(rt, shared.clone()?, shared.clone()?)
}

// Whether two pipelines over one service answer so in turn, and call it so often.
fn call_one(rt: &HostRuntime, calls: u32) -> Result<bool, AllocError> {
    let shared = Rc::new(rt.alloc(), Adding::by(1))?;
    let answered = over_one(rt, &shared);
    both(answered, Ok(shared.calls.get() == calls))
}

#[test]
fn two_pipelines_share_one_service(rt: HostRuntime) -> Result<(), Fail> {
    holds(&rt, call_one(&rt, 3))
}

// Whether a service answers so to 7 where one error becomes an answer.
fn falls_back<S>(rt: &HostRuntime, service: S, want: Result<u32, Fault>) -> Result<bool, AllocError>
where
    S: Service<u32, Response = u32, Error = Fault> + Drop,
    requires { S.can_call service }
{
    let fallback = Mending {
        error: Fault::Bad,
        with: 0,
    };
    handed(rt, service, fallback, &[Question::Answers(7, want)])
}

#[test]
fn a_fallback_answers_in_place_of_one_error(rt: HostRuntime) -> Result<(), Fail> {
    let worse = Faulty {
        fault: Fault::Worse,
    };
    hold(
        &rt,
        &[
            falls_back(&rt, Echo, Ok(7)),
            falls_back(&rt, Faulty { fault: Fault::Bad }, Ok(0)),
            falls_back(&rt, worse, Err(Fault::Worse)),
        ],
    )
}

// One step of a validation: it counts, and refuses each number above its limit.
fn step(tally: &Tally, limit: u32, error: Fault) -> Counting<'_, Limited<Fault>> {
    let limited = Limited {
        limit,
        step: 0,
        error,
    };
    Counting::over(limited, tally)
}

// Whether a validation by three steps answers so.
fn validates(
    rt: &HostRuntime,
    tally: &Tally,
    row: (u32, Result<u32, Fault>),
) -> Result<bool, AllocError> {
    let first = step(tally, 1000, Fault::Bad);
    let second = step(tally, 100, Fault::Worse);
    let third = step(tally, 10, Fault::Memory);
    to_the_left(rt, first, second, third, &[Question::Answers(row.0, row.1)])
}

// Whether a validation answers so, by so many steps.
fn stops_after(
    rt: &HostRuntime,
    row: (u32, Result<u32, Fault>),
    steps: u32,
) -> Result<bool, AllocError> {
    let tally = Tally::new();
    Ok(validates(rt, &tally, row)? && tally.calls.get() == steps)
}

#[test]
fn a_validation_stops_at_the_first_refusal(rt: HostRuntime) -> Result<(), Fail> {
    hold(
        &rt,
        &[
            stops_after(&rt, (5, Ok(5)), 3),
            stops_after(&rt, (50, Err(Fault::Memory)), 3),
            stops_after(&rt, (500, Err(Fault::Worse)), 2),
            stops_after(&rt, (5000, Err(Fault::Bad)), 1),
        ],
    )
}
