//! Services of the tests.
ghost use Rattle.std.specs.Prelude.{◌≡◌, ⊤};
ghost use Rattle.futures.specs.declared.task.Poll.TheVariants.{Ready as PollReady};
ghost use Rattle.service_core.specs.Meaning.{GivesOnly};

use futures::Future;
use futures::task::{Context, Poll};
use service_core::{NoMemory, Ready, Service, err, ok, ready};
use std::cell::Cell;
use std::marker::PhantomData;

/// Why a service of the tests gave no response.
#[derive(Clone, Copy, Drop, PartialEq)]
pub(crate) enum Fault {
    Bad,
    Worse,
    Memory,
}

impl NoMemory for Fault {
    ghost use Rattle.combine_tests.specs.declared.services.Fault.TheVariants.{Memory};

    ghost refusal = { Memory };

    fn no_memory() -> Fault {
        Fault::Memory
    }
}

/// An error that `map_err` makes.
#[derive(Clone, Copy, Drop, PartialEq)]
pub(crate) enum Failure {
    Mapped,
    NoRoom,
}

impl NoMemory for Failure {
    ghost use Rattle.combine_tests.specs.declared.services.Failure.TheVariants.{NoRoom};

    ghost refusal = { NoRoom };

    fn no_memory() -> Failure {
        Failure::NoRoom
    }
}

/// A word of requests and responses.
#[derive(Clone, Copy, Drop, PartialEq)]
pub(crate) enum Word {
    Srv,
    Srv1,
    Srv2,
    Fine,
    Failed,
}

/// Answers each request with itself.
#[derive(Clone, Copy, Drop)]
pub(crate) struct Echo;

impl<T: Drop> Service<T> for Echo {
    type Response = T;

    type Error = Fault;

    type Future = Ready<Result<T, Fault>>;

    ghost may = { λ _ _ _. ⊤ };

    ghost may_ready = { λ _ _. ⊤ };

    ghost may_begin = { λ _ _ f. GivesOnly ⟦<Ready<Result<T, Fault>> as Future>⟧ f (λ _. ⊤) };

    ghost begun_gives = { λ s q f h. h };

    fn poll_ready(&self, _cx: &mut Context<'_>) -> Poll<Result<(), Fault>> {
        Poll::Ready(Ok(()))
    }

    fn call(&self, req: T) -> Ready<Result<T, Fault>> {
        ok(req)
    }
}

/// Is never ready, and answers no request: each time it errs.
#[derive(Clone, Copy, Drop)]
pub(crate) struct Faulty {
    pub(crate) fault: Fault,
}

impl<T: Drop> Service<T> for Faulty {
    type Response = T;

    type Error = Fault;

    type Future = Ready<Result<T, Fault>>;

    ghost may = { λ _ _ _. ⊤ };

    ghost may_ready = { λ _ _. ⊤ };

    ghost may_begin = { λ _ _ f. GivesOnly ⟦<Ready<Result<T, Fault>> as Future>⟧ f (λ _. ⊤) };

    ghost begun_gives = { λ s q f h. h };

    fn poll_ready(&self, _cx: &mut Context<'_>) -> Poll<Result<(), Fault>> {
        Poll::Ready(Err(self.fault))
    }

    fn call(&self, _req: T) -> Ready<Result<T, Fault>> {
        err(self.fault)
    }
}

/// Answers each request with itself and a word.
#[derive(Drop)]
pub(crate) struct Tagging {
    pub(crate) tag: Word,
}

impl<T: Drop> Service<T> for Tagging {
    type Response = (T, Word);

    type Error = Fault;

    type Future = Ready<Result<(T, Word), Fault>>;

    ghost may = { λ _ _ _. ⊤ };

    ghost may_ready = { λ _ _. ⊤ };

    ghost may_begin = { λ _ _ f. GivesOnly ⟦<Ready<Result<(T, Word), Fault>> as Future>⟧ f (λ _. ⊤) };

    ghost begun_gives = { λ s q f h. h };

    fn poll_ready(&self, _cx: &mut Context<'_>) -> Poll<Result<(), Fault>> {
        Poll::Ready(Ok(()))
    }

    fn call(&self, req: T) -> Ready<Result<(T, Word), Fault>> {
        ok((req, self.tag))
    }
}

/// Answers as its request says.
#[derive(Drop)]
pub(crate) struct Obeying;

impl<T: Drop> Service<Result<T, Fault>> for Obeying {
    type Response = T;

    type Error = Fault;

    type Future = Ready<Result<T, Fault>>;

    ghost may = { λ _ _ _. ⊤ };

    ghost may_ready = { λ _ _. ⊤ };

    ghost may_begin = { λ _ _ f. GivesOnly ⟦<Ready<Result<T, Fault>> as Future>⟧ f (λ _. ⊤) };

    ghost begun_gives = { λ s q f h. h };

    fn poll_ready(&self, _cx: &mut Context<'_>) -> Poll<Result<(), Fault>> {
        Poll::Ready(Ok(()))
    }

    fn call(&self, req: Result<T, Fault>) -> Ready<Result<T, Fault>> {
        ready(req)
    }
}

/// Answers each result with its word and a word on it.
#[derive(Drop)]
pub(crate) struct Summing;

impl Service<Result<Word, Fault>> for Summing {
    type Response = (Word, Word);

    type Error = Fault;

    type Future = Ready<Result<(Word, Word), Fault>>;

    ghost may = { λ _ _ _. ⊤ };

    ghost may_ready = { λ _ _. ⊤ };

    ghost may_begin = { λ _ _ f. GivesOnly ⟦<Ready<Result<(Word, Word), Fault>> as Future>⟧ f (λ _. ⊤) };

    ghost begun_gives = { λ s q f h. h };

    fn poll_ready(&self, _cx: &mut Context<'_>) -> Poll<Result<(), Fault>> {
        Poll::Ready(Ok(()))
    }

    fn call(&self, req: Result<Word, Fault>) -> Ready<Result<(Word, Word), Fault>> {
        match req {
            Ok(m) => ok((m, Word::Fine)),
            Err(_) => ok((Word::Srv2, Word::Failed)),
        }
    }
}

/// How often a service was asked whether it is ready, and how often it was called.
#[derive(Drop)]
pub(crate) struct Tally {
    pub(crate) polls: Cell<u32>,
    pub(crate) calls: Cell<u32>,
}

impl Tally {
    pub(crate) fn new() -> Tally {
        Tally {
            polls: Cell::new(0),
            calls: Cell::new(0),
        }
    }
}

/// Counts what its service is asked.
#[derive(Drop)]
pub(crate) struct Counting<'a, S> {
    pub(crate) service: S,
    pub(crate) tally: &'a Tally,
}

impl<'a, S> Counting<'a, S> {
    /// A service that counts in `tally` what it is asked.
    pub(crate) fn over(service: S, tally: &'a Tally) -> Counting<'a, S>
        ensures { result.service ≡ service }
    {
        Counting { service, tally }
    }
}

impl<S: Service<Req>, Req> Service<Req> for Counting<'_, S> {
    type Response = S::Response;

    type Error = S::Error;

    type Future = S::Future;

    ghost can_call = { λ s. S.can_call s.service };

    ghost may = { λ s. S.may s.service };

    ghost may_ready = { λ s. S.may_ready s.service };

    ghost may_begin = { λ s. S.may_begin s.service };

    ghost begun_gives = { λ s. S.begun_gives s.service };

    fn poll_ready(&self, cx: &mut Context<'_>) -> Poll<Result<(), S::Error>> {
        self.tally
            .polls
            .set(self.tally.polls.get().saturating_add(1));
        self.service.poll_ready(cx)
    }

    fn call(&self, req: Req) -> S::Future {
        self.tally
            .calls
            .set(self.tally.calls.get().saturating_add(1));
        self.service.call(req)
    }
}

/// Calls its service, but errs where it is asked whether it is ready.
#[derive(Drop)]
pub(crate) struct Unready<S> {
    pub(crate) service: S,
}

impl<S: Service<Req, Error = Fault>, Req> Service<Req> for Unready<S> {
    type Response = S::Response;

    type Error = Fault;

    type Future = S::Future;

    ghost can_call = { λ s. S.can_call s.service };

    ghost may = { λ s. S.may s.service };

    ghost may_ready = { λ _ _. ⊤ };

    ghost may_begin = { λ s. S.may_begin s.service };

    ghost begun_gives = { λ s. S.begun_gives s.service };

    fn poll_ready(&self, _cx: &mut Context<'_>) -> Poll<Result<(), Fault>> {
        Poll::Ready(Err(Fault::Bad))
    }

    fn call(&self, req: Req) -> S::Future {
        self.service.call(req)
    }
}

/// Calls its service, but is pending at the first polls of its readiness.
#[derive(Drop)]
pub(crate) struct Awaking<S> {
    pub(crate) service: S,
    pub(crate) waits: Cell<u32>,
}

impl<S: Service<Req>, Req> Service<Req> for Awaking<S> {
    type Response = S::Response;

    type Error = S::Error;

    type Future = S::Future;

    ghost can_call = { λ s. S.can_call s.service };

    ghost may = { λ s. S.may s.service };

    ghost may_ready = { λ _ _. ⊤ };

    ghost may_begin = { λ s. S.may_begin s.service };

    ghost begun_gives = { λ s. S.begun_gives s.service };

    fn poll_ready(&self, cx: &mut Context<'_>) -> Poll<Result<(), S::Error>> {
        let waits = self.waits.get();
        if waits > 0 {
            self.waits.set(waits - 1);
            return cx.yield_now();
        }
        self.service.poll_ready(cx)
    }

    fn call(&self, req: Req) -> S::Future {
        self.service.call(req)
    }
}

/// A future that begins after some polls.
#[derive(Drop)]
pub(crate) struct Late<F> {
    pub(crate) waits: u32,
    pub(crate) future: F,
}

impl<F: Future> Future for Late<F> {
    type Output = F::Output;

    ghost can_poll = { λ l. F.can_poll l.future };

    ghost gives = { λ l. F.gives l.future };

    fn poll(&mut self, cx: &mut Context<'_>) -> Poll<F::Output> {
        if self.waits > 0 {
            self.waits -= 1;
            return cx.yield_now();
        }
        self.future.poll(cx)
    }
}

/// Answers as its service does, after some polls.
#[derive(Drop)]
pub(crate) struct Slow<S> {
    pub(crate) service: S,
    pub(crate) waits: u32,
}

impl<S: Service<Req>, Req> Service<Req> for Slow<S> {
    type Response = S::Response;

    type Error = S::Error;

    type Future = Late<S::Future>;

    ghost can_call = { λ s. S.can_call s.service };

    ghost may = { λ s. S.may s.service };

    ghost may_ready = { λ s. S.may_ready s.service };

    ghost may_begin = { λ s q f. S.may_begin s.service q f.future };

    ghost begun_gives = { λ s q f. S.begun_gives s.service q f.future };

    fn poll_ready(&self, cx: &mut Context<'_>) -> Poll<Result<(), S::Error>> {
        self.service.poll_ready(cx)
    }

    fn call(&self, req: Req) -> Late<S::Future> {
        Late {
            waits: self.waits,
            future: self.service.call(req),
        }
    }
}

/// The readiness of a service, as a future.
#[derive(Drop)]
pub(crate) struct Asked<S, Req> {
    pub(crate) service: S,
    pub(crate) request: PhantomData<Req>,
}

impl<S: Service<Req> + Drop, Req> Future for Asked<S, Req> {
    type Output = Result<(), S::Error>;

    ghost can_poll = { λ a. S.can_call a.service };

    ghost gives = { λ a r. S.may_ready a.service (PollReady r) };

    fn poll(&mut self, cx: &mut Context<'_>) -> Poll<Result<(), S::Error>> {
        self.service.poll_ready(cx)
    }
}
