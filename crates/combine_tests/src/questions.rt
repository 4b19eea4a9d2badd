//! What a service is asked.
ghost use Rattle.std.specs.Prelude.{true, ◌≡◌, ⊤, IfOk};

use crate::services::Asked;
use futures::Future;
use futures::task::Poll;
use futures::test::MockTask;
use service_core::{NoMemory, Service};
use std::alloc::{AllocError, Global};
use std::marker::PhantomData;
use std::rc::Rc;
use std::sync::Arc;

/// What a service is asked, and what comes.
#[derive(Copy)]
pub(crate) enum Question<Req, R, E> {
    /// The future of a call gives this at its first poll.
    Answers(Req, Result<R, E>),
    /// The future of a call is pending twice, and gives this at its third poll.
    AnswersThird(Req, Result<R, E>),
    /// The future of a call is pending, and is dropped then.
    Waits(Req),
    /// One poll of its readiness gives this.
    IsReady(Result<(), E>),
    /// One poll of its readiness is pending.
    ReadinessWaits,
    /// A call gives this where the service is lent, in a box, shared, and lent to be changed.
    AnswersEachWay(Req, Result<R, E>),
    /// One poll of its readiness gives this where it is lent, in a box, shared, and lent to be changed.
    IsReadyEachWay(Result<(), E>),
}

impl<Req: Copy, R: Copy, E: Copy> Clone for Question<Req, R, E> {
    ghost is_clone = { λ _ _. ⊤ };

    fn clone(&self) -> Result<Question<Req, R, E>, AllocError> {
        Ok(*self)
    }
}

// An error where it stands for want of memory, else `false`.
fn refused_or_other<E: PartialEq + NoMemory>(e: E) -> Result<bool, AllocError> {
    if e == E::no_memory() {
        Err(AllocError)
    } else {
        Ok(false)
    }
}

/// Whether this is the error that was wanted. Want of memory that was not wanted is an error.
pub(crate) fn is_error<E: PartialEq + NoMemory>(came: E, want: &E) -> Result<bool, AllocError> {
    if came == *want {
        Ok(true)
    } else {
        refused_or_other(came)
    }
}

/// Whether the wanted result came. Want of memory that was not wanted is an error.
pub(crate) fn is<R, E>(got: Poll<Result<R, E>>, want: &Result<R, E>) -> Result<bool, AllocError>
where
    R: PartialEq + Drop,
    E: PartialEq + NoMemory,
{
    match got {
        Poll::Ready(Ok(value)) => match want {
            Ok(other) => Ok(value == *other),
            Err(_) => Ok(false),
        },
        Poll::Ready(Err(e)) => match want {
            Ok(_) => refused_or_other(e),
            Err(other) => is_error(e, other),
        },
        Poll::Pending => Ok(false),
    }
}

/// Whether a service's future gives this at its first poll.
pub(crate) fn answers<S, Req>(
    task: &MockTask,
    service: S,
    req: Req,
    want: &Result<S::Response, S::Error>,
) -> Result<bool, AllocError>
where
    S: Service<Req, Response: PartialEq + Drop, Error: PartialEq + NoMemory> + Drop,
    requires { S.can_call service }
{
    let mut future = service.call(req);
    is(task.poll(&mut future), want)
}

// What a service answers that is asked once whether it is ready.
fn readiness<S: Service<Req> + Drop, Req>(task: &MockTask, service: S) -> Poll<Result<(), S::Error>>
    requires { S.can_call service }
{
    let mut asked = Asked {
        service,
        request: PhantomData,
    };
    task.poll(&mut asked)
}

// Whether a future is pending at two polls. It can be polled again then.
fn waits_twice<F: Future<Output: Drop>>(task: &MockTask, future: &mut F) -> bool
    requires { F.can_poll future.old }
    ensures { result ≡ true → F.can_poll future.new }
{
    task.poll(future).is_pending() && task.poll(future).is_pending()
}

// Whether a call is pending twice, and gives this at its third poll.
fn answers_third<S, Req>(
    task: &MockTask,
    service: S,
    req: Req,
    want: &Result<S::Response, S::Error>,
) -> Result<bool, AllocError>
where
    S: Service<Req, Response: PartialEq + Drop, Error: PartialEq + NoMemory> + Drop,
    requires { S.can_call service }
{
    let mut future = service.call(req);
    if waits_twice(task, &mut future) {
        is(task.poll(&mut future), want)
    } else {
        Ok(false)
    }
}

// Whether a call is pending at its first poll. It is dropped then.
fn waits<S: Service<Req, Response: Drop, Error: Drop> + Drop, Req>(
    task: &MockTask,
    service: S,
    req: Req,
) -> bool
    requires { S.can_call service }
{
    let mut future = service.call(req);
    task.poll(&mut future).is_pending()
}

/// Whether both are so.
pub(crate) fn both(
    one: Result<bool, AllocError>,
    other: Result<bool, AllocError>,
) -> Result<bool, AllocError> {
    Ok(one? && other?)
}

// Whether a service answers a question so that is asked each way.
fn once<S, Req>(
    task: &MockTask,
    service: S,
    question: &Question<Req, S::Response, S::Error>,
) -> Result<bool, AllocError>
where
    S: Service<Req, Response: PartialEq + Drop, Error: PartialEq + NoMemory> + Drop,
    Req: Copy,
    requires { S.can_call service }
{
    match question {
        Question::AnswersEachWay(req, want) => answers(task, service, *req, want),
        Question::IsReadyEachWay(want) => is(readiness(task, service), want),
        _ => Ok(false),
    }
}

// Whether a service answers so in a box.
fn boxed<S, Req>(
    task: &MockTask,
    alloc: Global,
    service: &S,
    question: &Question<Req, S::Response, S::Error>,
) -> Result<bool, AllocError>
where
    S: Service<Req, Response: PartialEq + Drop, Error: PartialEq + NoMemory> + Drop,
    Req: Copy,
    requires { S.can_call service.now }
{
    once(task, Box::new(alloc, service)?, question)
}

// Whether a service answers so where it is shared.
fn shared<S, Req>(
    task: &MockTask,
    alloc: Global,
    service: &S,
    question: &Question<Req, S::Response, S::Error>,
) -> Result<bool, AllocError>
where
    S: Service<Req, Response: PartialEq + Drop, Error: PartialEq + NoMemory> + Drop,
    Req: Copy,
    requires { S.can_call service.now }
{
    once(task, Rc::new(alloc, service)?, question)
}

// Whether a service answers so where it is shared widely.
fn shared_widely<S, Req>(
    task: &MockTask,
    alloc: Global,
    service: &S,
    question: &Question<Req, S::Response, S::Error>,
) -> Result<bool, AllocError>
where
    S: Service<Req, Response: PartialEq + Drop, Error: PartialEq + NoMemory> + Drop,
    Req: Copy,
    requires { S.can_call service.now }
{
    once(task, Arc::new(alloc, service)?, question)
}

// Whether a service answers so where it is lent to be changed.
fn lent_mutably<S, Req>(
    task: &MockTask,
    service: &S,
    question: &Question<Req, S::Response, S::Error>,
) -> Result<bool, AllocError>
where
    S: Service<Req, Response: PartialEq + Drop, Error: PartialEq + NoMemory> + Drop,
    Req: Copy,
    requires { S.can_call service.now }
{
    let mut service = service;
    once(task, &mut service, question)
}

// Whether a service answers so where it is lent, in a box, shared, and lent to be changed.
fn each_way<S, Req>(
    task: &MockTask,
    alloc: Global,
    service: &S,
    question: &Question<Req, S::Response, S::Error>,
) -> Result<bool, AllocError>
where
    S: Service<Req, Response: PartialEq + Drop, Error: PartialEq + NoMemory> + Drop,
    Req: Copy,
    requires { S.can_call service.now }
{
    let owned = boxed(task, alloc, service, question);
    let counted = shared(task, alloc, service, question);
    let counted_widely = shared_widely(task, alloc, service, question);
    let lent = once(task, service, question);
    let lent_either_way = both(lent, lent_mutably(task, service, question));
    both(both(owned, lent_either_way), both(counted, counted_widely))
}

// Whether a service answers a question so.
fn holds<S, Req>(
    task: &MockTask,
    alloc: Global,
    service: &S,
    question: &Question<Req, S::Response, S::Error>,
) -> Result<bool, AllocError>
where
    S: Service<Req, Response: PartialEq + Drop, Error: PartialEq + NoMemory> + Drop,
    Req: Copy,
    requires { S.can_call service.now }
{
    match question {
        Question::Answers(req, want) => answers(task, service, *req, want),
        Question::AnswersThird(req, want) => answers_third(task, service, *req, want),
        Question::Waits(req) => Ok(waits(task, service, *req)),
        Question::IsReady(want) => is(readiness(task, service), want),
        Question::ReadinessWaits => Ok(readiness(task, service).is_pending()),
        Question::AnswersEachWay(_, _) | Question::IsReadyEachWay(_) => {
            each_way(task, alloc, service, question)
        }
    }
}

// Whether a service answers each question so, in order, where a task asks it.
fn hold_in_order<S, Req>(
    task: &MockTask,
    alloc: Global,
    service: &S,
    questions: &[Question<Req, S::Response, S::Error>],
) -> Result<bool, AllocError>
where
    S: Service<Req, Response: PartialEq + Drop, Error: PartialEq + NoMemory> + Drop,
    Req: Copy,
    requires { S.can_call service.now }
{
    for question in questions {
        if !holds(task, alloc, service, question)? {
            return Ok(false);
        }
    }
    Ok(true)
}

/// A task that polls. Where none can be made, that is want of memory.
pub(crate) fn task(rt: &HostRuntime) -> Result<MockTask, AllocError> {
    match MockTask::new(rt) {
        Ok(task) => Ok(task),
        Err(_) => Err(AllocError),
    }
}

/// Whether a service answers each question so, in order.
pub(crate) fn all_hold<S, Req>(
    rt: &HostRuntime,
    service: &S,
    questions: &[Question<Req, S::Response, S::Error>],
) -> Result<bool, AllocError>
where
    S: Service<Req, Response: PartialEq + Drop, Error: PartialEq + NoMemory> + Drop,
    Req: Copy,
    requires { S.can_call service.now }
{
    let task = task(rt)?;
    hold_in_order(&task, rt.alloc(), service, questions)
}

/// Whether a service answers each question so, in order, once it is built.
pub(crate) fn built_holds<S, Req>(
    rt: &HostRuntime,
    service: Result<S, AllocError>,
    questions: &[Question<Req, S::Response, S::Error>],
) -> Result<bool, AllocError>
where
    S: Service<Req, Response: PartialEq + Drop, Error: PartialEq + NoMemory> + Drop,
    Req: Copy,
    requires { IfOk service S.can_call }
{
    match service {
        Ok(service) => all_hold(rt, &service, questions),
        Err(_) => Err(AllocError),
    }
}
