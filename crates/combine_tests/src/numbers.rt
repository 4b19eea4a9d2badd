//! Services over numbers.
ghost use Rattle.std.specs.Prelude.{◌≡◌, ⊤};
ghost use Rattle.service_core.specs.Meaning.{GivesOnly};

use crate::services::Fault;
use futures::Future;
use futures::task::{Context, Poll};
use service_core::{Ready, Service, err, ok};
use std::cell::Cell;

/// Divides each number.
#[derive(Clone, Copy, Drop)]
pub(crate) struct Dividing {
    pub(crate) by: u32,
}

impl Service<u32> for Dividing {
    type Response = u32;

    type Error = Fault;

    type Future = Ready<Result<u32, Fault>>;

    ghost may = { λ _ _ _. ⊤ };

    ghost may_ready = { λ _ _. ⊤ };

    ghost may_begin = { λ _ _ f. GivesOnly ⟦<Ready<Result<u32, Fault>> as Future>⟧ f (λ _. ⊤) };

    ghost begun_gives = { λ s q f h. h };

    fn poll_ready(&self, _cx: &mut Context<'_>) -> Poll<Result<(), Fault>> {
        Poll::Ready(Ok(()))
    }

    fn call(&self, req: u32) -> Ready<Result<u32, Fault>> {
        ok(req.checked_div(self.by).unwrap_or(0))
    }
}

/// Adds a step to each number, and counts its calls.
#[derive(Drop)]
pub(crate) struct Adding {
    pub(crate) step: u32,
    pub(crate) calls: Cell<u32>,
}

impl Adding {
    /// A service that adds the step.
    pub(crate) fn by(step: u32) -> Adding
        ensures { result.step ≡ step }
    {
        Adding {
            step,
            calls: Cell::new(0),
        }
    }
}

impl Service<u32> for Adding {
    type Response = u32;

    type Error = Fault;

    type Future = Ready<Result<u32, Fault>>;

    ghost may = { λ _ _ _. ⊤ };

    ghost may_ready = { λ _ _. ⊤ };

    ghost may_begin = { λ _ _ f. GivesOnly ⟦<Ready<Result<u32, Fault>> as Future>⟧ f (λ _. ⊤) };

    ghost begun_gives = { λ s q f h. h };

    fn poll_ready(&self, _cx: &mut Context<'_>) -> Poll<Result<(), Fault>> {
        Poll::Ready(Ok(()))
    }

    fn call(&self, req: u32) -> Ready<Result<u32, Fault>> {
        self.calls.set(self.calls.get().saturating_add(1));
        ok(req.wrapping_add(self.step))
    }
}

/// Adds a step to each number up to a limit, and refuses those above it.
#[derive(Drop)]
pub(crate) struct Limited<E> {
    pub(crate) limit: u32,
    pub(crate) step: u32,
    pub(crate) error: E,
}

impl<E: Copy + Drop> Service<u32> for Limited<E> {
    type Response = u32;

    type Error = E;

    type Future = Ready<Result<u32, E>>;

    ghost may = { λ _ _ _. ⊤ };

    ghost may_ready = { λ _ _. ⊤ };

    ghost may_begin = { λ _ _ f. GivesOnly ⟦<Ready<Result<u32, E>> as Future>⟧ f (λ _. ⊤) };

    ghost begun_gives = { λ s q f h. h };

    fn poll_ready(&self, _cx: &mut Context<'_>) -> Poll<Result<(), E>> {
        Poll::Ready(Ok(()))
    }

    fn call(&self, req: u32) -> Ready<Result<u32, E>> {
        if req > self.limit {
            err(self.error)
        } else {
            ok(req.wrapping_add(self.step))
        }
    }
}

/// Answers each number that came with itself, one error with a number, and each other error with itself.
#[derive(Drop)]
pub(crate) struct Mending<E> {
    pub(crate) error: E,
    pub(crate) with: u32,
}

impl<E: Copy + PartialEq + Drop> Service<Result<u32, E>> for Mending<E> {
    type Response = u32;

    type Error = E;

    type Future = Ready<Result<u32, E>>;

    ghost may = { λ _ _ _. ⊤ };

    ghost may_ready = { λ _ _. ⊤ };

    ghost may_begin = { λ _ _ f. GivesOnly ⟦<Ready<Result<u32, E>> as Future>⟧ f (λ _. ⊤) };

    ghost begun_gives = { λ s q f h. h };

    fn poll_ready(&self, _cx: &mut Context<'_>) -> Poll<Result<(), E>> {
        Poll::Ready(Ok(()))
    }

    fn call(&self, req: Result<u32, E>) -> Ready<Result<u32, E>> {
        match req {
            Ok(number) => ok(number),
            Err(error) => {
                if error == self.error {
                    ok(self.with)
                } else {
                    err(error)
                }
            }
        }
    }
}
