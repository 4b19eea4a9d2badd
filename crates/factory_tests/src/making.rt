//! What a making is asked, whatever it makes.
ghost use Rattle.std.specs.Prelude.{true, ◌≡◌, Ok as Made};
ghost use Rattle.futures.specs.declared.task.Poll.TheVariants.{Ready as PollReady};

use futures::Future;
use futures::task::{Context, Poll};
use futures::test::MockTask;
use service_core::{NoMemory, Service};
use std::alloc::AllocError;
use std::marker::PhantomData;

/// What is asked, and what has to show.
#[derive(Drop)]
pub(crate) enum Asked<Req, Res, E, I> {
    /// A service that is made at once answers so at once.
    Served(Req, Result<Res, E>),
    /// The readiness of a service that is made at once is so, and a call after it is answered so.
    Readied(Result<(), E>, Req, Result<Res, E>),
    /// What comes at once in place of a service.
    Denied(I),
    /// The making is pending at its first poll. It is dropped then.
    Waits,
    /// How many polls it takes until the making answers, three at most.
    Polls(u32),
}

/// The readiness of a service, as a future.
#[derive(Drop)]
struct Readiness<S, Req> {
    service: S,
    request: PhantomData<Req>,
}

impl<S: Service<Req> + Drop, Req> Future for Readiness<S, Req> {
    type Output = Result<(), S::Error>;

    ghost can_poll = { λ a. S.can_call a.service };

    ghost gives = { λ a r. S.may_ready a.service (PollReady r) };

    fn poll(&mut self, cx: &mut Context<'_>) -> Poll<Result<(), S::Error>> {
        self.service.poll_ready(cx)
    }
}

/// Whether both hold. Want of memory goes before.
pub(crate) fn both(
    first: Result<bool, AllocError>,
    second: Result<bool, AllocError>,
) -> Result<bool, AllocError> {
    let first = first?;
    Ok(second? && first)
}

/// A task that polls.
pub(crate) fn task(rt: &HostRuntime) -> Result<MockTask, AllocError> {
    match MockTask::new(rt) {
        Ok(task) => Ok(task),
        Err(_) => Err(AllocError),
    }
}

/// That something else came: an error where it is want of memory.
pub(crate) fn is_other<E: NoMemory + PartialEq>(error: E) -> Result<bool, AllocError> {
    if error == E::no_memory() {
        Err(AllocError)
    } else {
        Ok(false)
    }
}

/// Whether an error is the one that is wanted.
fn is_error<E: NoMemory + PartialEq>(error: E, wanted: &E) -> Result<bool, AllocError> {
    if error == *wanted {
        Ok(true)
    } else {
        is_other(error)
    }
}

/// Whether an answer is there and the one that is wanted.
fn is_answer<T, E>(answer: Poll<Result<T, E>>, wanted: &Result<T, E>) -> Result<bool, AllocError>
where
    T: PartialEq + Drop,
    E: NoMemory + PartialEq,
{
    match answer {
        Poll::Ready(Ok(value)) => match wanted {
            Ok(other) => Ok(value == *other),
            Err(_) => Ok(false),
        },
        Poll::Ready(Err(error)) => match wanted {
            Ok(_) => is_other(error),
            Err(other) => is_error(error, other),
        },
        Poll::Pending => Ok(false),
    }
}

/// Whether a service answers so at once.
fn answers<S, Req>(
    task: &MockTask,
    service: S,
    req: Req,
    wanted: &Result<S::Response, S::Error>,
) -> Result<bool, AllocError>
where
    S: Service<Req, Response: PartialEq + Drop, Error: NoMemory + PartialEq> + Drop,
    requires { S.can_call service }
{
    let mut future = service.call(req);
    is_answer(task.poll(&mut future), wanted)
}

/// Whether the readiness of a service is so at once.
fn is_ready<S, Req>(
    task: &MockTask,
    service: S,
    wanted: &Result<(), S::Error>,
) -> Result<bool, AllocError>
where
    S: Service<Req, Error: NoMemory + PartialEq> + Drop,
    requires { S.can_call service }
{
    let mut readiness = Readiness {
        service,
        request: PhantomData,
    };
    is_answer(task.poll(&mut readiness), wanted)
}

/// Whether the readiness of a service is so at once, and its answer after it.
pub(crate) fn answers_once_ready<S, Req>(
    task: &MockTask,
    service: S,
    ready: &Result<(), S::Error>,
    req: Req,
    wanted: &Result<S::Response, S::Error>,
) -> Result<bool, AllocError>
where
    Req: Drop,
    S: Service<Req, Response: PartialEq + Drop, Error: NoMemory + PartialEq> + Drop,
    requires { S.can_call service }
{
    let readied = is_ready::<&S, Req>(task, &service, ready);
    both(readied, answers(task, service, req, wanted))
}

/// Whether a service that is made at once answers so at once.
pub(crate) fn serves<M, S, Req, I>(
    task: &MockTask,
    making: &mut M,
    req: Req,
    wanted: &Result<S::Response, S::Error>,
) -> Result<bool, AllocError>
where
    Req: Drop,
    S: Service<Req, Response: PartialEq + Drop, Error: NoMemory + PartialEq> + Drop,
    I: NoMemory + PartialEq,
    M: Future<Output = Result<S, I>>,
    requires pollable { M.can_poll making.old }
    requires callable { (s : S) → M.gives making.old (Made s) → S.can_call s }
{
    match task.poll(making) {
        Poll::Ready(Ok(service)) => answers(task, service, req, wanted),
        Poll::Ready(Err(error)) => is_other(error),
        Poll::Pending => Ok(false),
    }
}

/// Whether the readiness of a service that is made at once is so, and its answer after it.
fn readies<M, S, Req, I>(
    task: &MockTask,
    making: &mut M,
    ready: &Result<(), S::Error>,
    req: Req,
    wanted: &Result<S::Response, S::Error>,
) -> Result<bool, AllocError>
where
    Req: Drop,
    S: Service<Req, Response: PartialEq + Drop, Error: NoMemory + PartialEq> + Drop,
    I: NoMemory + PartialEq,
    M: Future<Output = Result<S, I>>,
    requires pollable { M.can_poll making.old }
    requires callable { (s : S) → M.gives making.old (Made s) → S.can_call s }
{
    match task.poll(making) {
        Poll::Ready(Ok(service)) => answers_once_ready(task, service, ready, req, wanted),
        Poll::Ready(Err(error)) => is_other(error),
        Poll::Pending => Ok(false),
    }
}

/// Whether this comes at once in place of a service.
fn denies<M, S, I>(task: &MockTask, making: &mut M, wanted: &I) -> Result<bool, AllocError>
where
    S: Drop,
    I: NoMemory + PartialEq,
    M: Future<Output = Result<S, I>>,
    requires { M.can_poll making.old }
{
    match task.poll(making) {
        Poll::Ready(Err(error)) => is_error(error, wanted),
        _ => Ok(false),
    }
}

/// Whether this comes at once in place of a service, with a task made for it.
pub(crate) fn is_denied<M, S, I>(
    rt: &HostRuntime,
    mut making: M,
    wanted: &I,
) -> Result<bool, AllocError>
where
    S: Drop,
    I: NoMemory + PartialEq,
    M: Future<Output = Result<S, I>>,
    requires { M.can_poll making }
{
    match task(rt) {
        Ok(task) => denies(&task, &mut making, wanted),
        Err(_) => Err(AllocError),
    }
}

/// Whether a making is pending at its next poll. It can be polled again then.
pub(crate) fn waits<M: Future<Output: Drop>>(task: &MockTask, making: &mut M) -> bool
    requires { M.can_poll making.old }
    ensures { result ≡ true → M.can_poll making.new }
{
    task.poll(making).is_pending()
}

/// How many polls it takes until a making answers, where that is three at most.
fn polls_of<M: Future<Output: Drop>>(task: &MockTask, making: &mut M) -> u32
    requires { M.can_poll making.old }
{
    if !waits(task, making) {
        return 1;
    }
    if !waits(task, making) {
        return 2;
    }
    if !waits(task, making) {
        return 3;
    }
    4
}

impl<Req, Res, E, I> Asked<Req, Res, E, I> {
    /// Whether it is asked of a factory and of a copy of it, where they are lent and where they are shared.
    pub(crate) fn is_of_each_way(&self) -> bool {
        match self {
            Asked::Served(_, _) => true,
            _ => false,
        }
    }
}

/// Whether a making shows what it has to.
pub(crate) fn making_shows<M, S, Req, I>(
    task: &MockTask,
    making: &mut M,
    asked: &Asked<Req, S::Response, S::Error, I>,
) -> Result<bool, AllocError>
where
    Req: Copy + Drop,
    S: Service<Req, Response: PartialEq + Drop, Error: NoMemory + PartialEq> + Drop,
    I: NoMemory + PartialEq,
    M: Future<Output = Result<S, I>>,
    requires pollable { M.can_poll making.old }
    requires callable { (s : S) → M.gives making.old (Made s) → S.can_call s }
{
    match asked {
        Asked::Served(req, answer) => serves(task, making, *req, answer),
        Asked::Readied(ready, req, answer) => readies(task, making, ready, *req, answer),
        Asked::Denied(denial) => denies(task, making, denial),
        Asked::Waits => Ok(waits(task, making)),
        Asked::Polls(polls) => Ok(polls_of(task, making) == *polls),
    }
}
