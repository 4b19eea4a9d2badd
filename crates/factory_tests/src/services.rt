//! The services of the tests.
ghost use Rattle.std.specs.Prelude.{⊤};
ghost use Rattle.service_core.specs.Meaning.{GivesOnly};

use crate::words::Fault;
use futures::Future;
use futures::task::{Context, Poll};
use service_core::{Ready, Service, err, ok};
use std::cell::Cell;
use std::rc::Rc;

/// A request that stands for a number.
pub(crate) trait Number: Drop {
    fn number(&self) -> u32;
}

impl Number for u32 {
    fn number(&self) -> u32 {
        *self
    }
}

impl Number for Result<u32, Fault> {
    fn number(&self) -> u32 {
        match self {
            Ok(number) => *number,
            Err(_) => 99,
        }
    }
}

/// What a service answers.
#[derive(Clone, Copy, Drop)]
pub(crate) struct Kind {
    /// Each number up to the limit is multiplied by the factor, and the step is added. Those above it are refused.
    pub(crate) factor: u32,
    pub(crate) step: u32,
    pub(crate) limit: u32,
    /// Whether its readiness is an error.
    pub(crate) is_broken: bool,
    /// How many polls of its readiness are pending.
    pub(crate) waits: u32,
}

/// Answers each number with itself.
pub(crate) fn echo() -> Kind {
    digit(1, 0)
}

/// Puts a digit behind each number, where the factor is ten.
pub(crate) fn digit(factor: u32, step: u32) -> Kind {
    Kind {
        factor,
        step,
        limit: 9999,
        is_broken: false,
        waits: 0,
    }
}

/// Is never ready, and answers no request: each time it errs.
pub(crate) fn faulty() -> Kind {
    Kind {
        factor: 1,
        step: 0,
        limit: 0,
        is_broken: true,
        waits: 0,
    }
}

/// A service of its kind, which adds one more for each poll of its readiness.
#[derive(Drop)]
pub(crate) struct Serving {
    pub(crate) kind: Kind,
    pub(crate) polls: Cell<u32>,
    pub(crate) calls: Cell<u32>,
}

/// A new service of the kind.
pub(crate) fn service_of(kind: Kind) -> Serving {
    Serving {
        kind,
        polls: Cell::new(0),
        calls: Cell::new(0),
    }
}

impl<T: Number> Service<T> for Serving {
    type Response = u32;

    type Error = Fault;

    type Future = Ready<Result<u32, Fault>>;

    ghost may = { λ _ _ _. ⊤ };

    ghost may_ready = { λ _ _. ⊤ };

    ghost may_begin = { λ _ _ f. GivesOnly ⟦<Ready<Result<u32, Fault>> as Future>⟧ f (λ _. ⊤) };

    ghost begun_gives = { λ s q f h. h };

    fn poll_ready(&self, cx: &mut Context<'_>) -> Poll<Result<(), Fault>> {
        let polls = self.polls.get().saturating_add(1);
        self.polls.set(polls);
        if polls <= self.kind.waits {
            return cx.yield_now();
        }
        if self.kind.is_broken {
            Poll::Ready(Err(Fault::Bad))
        } else {
            Poll::Ready(Ok(()))
        }
    }

    fn call(&self, req: T) -> Ready<Result<u32, Fault>> {
        self.calls.set(self.calls.get().saturating_add(1));
        let number = req.number();
        if number > self.kind.limit {
            return err(Fault::Bad);
        }
        let own = number.wrapping_mul(self.kind.factor);
        ok(
            own.wrapping_add(self.kind.step)
                .wrapping_add(self.polls.get()),
        )
    }
}

/// Hands on each number up to its limit, and refuses those above it.
#[derive(Drop)]
pub(crate) struct Limited {
    pub(crate) limit: u32,
    pub(crate) service: Rc<Serving>,
}

impl Service<u32> for Limited {
    type Response = u32;

    type Error = Fault;

    type Future = Ready<Result<u32, Fault>>;

    ghost may = { λ _ _ _. ⊤ };

    ghost may_ready = { λ _ _. ⊤ };

    ghost may_begin = { λ _ _ f. GivesOnly ⟦<Ready<Result<u32, Fault>> as Future>⟧ f (λ _. ⊤) };

    ghost begun_gives = { λ s q f h. h };

    fn poll_ready(&self, cx: &mut Context<'_>) -> Poll<Result<(), Fault>> {
        Service::<u32>::poll_ready(&self.service, cx)
    }

    fn call(&self, req: u32) -> Ready<Result<u32, Fault>> {
        if req > self.limit {
            err(Fault::Bad)
        } else {
            self.service.call(req)
        }
    }
}
