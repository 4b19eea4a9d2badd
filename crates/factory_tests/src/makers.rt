//! The factories of the tests.
ghost use Rattle.std.specs.Prelude.{⊤};
ghost use Rattle.service_core.specs.Meaning.{GivesOnly};

use crate::services::{Kind, Number, Serving, echo, service_of};
use crate::words::{Configures, Denial, Fault, Settings};
use futures::Future;
use futures::task::{Context, Poll};
use service_core::{Ready, ServiceFactory, ready};
use std::alloc::AllocError;
use std::marker::PhantomData;

/// A future that begins after some polls.
#[derive(Drop)]
pub(crate) struct Late<F> {
    pub(crate) waits: u32,
    pub(crate) future: F,
}

impl<F: Future> Future for Late<F> {
    type Output = F::Output;

    ghost can_poll = { λ l. F.can_poll l.future };

    ghost gives = { λ l. F.gives l.future };

    fn poll(&mut self, cx: &mut Context<'_>) -> Poll<F::Output> {
        if self.waits > 0 {
            self.waits -= 1;
            return cx.yield_now();
        }
        self.future.poll(cx)
    }
}

/// Makes services of a kind after some polls, to whose steps the configuration adds its own, or none.
#[derive(Drop)]
pub(crate) struct Makes<C> {
    kind: Kind,
    waits: u32,
    denial: Option<Denial>,
    config: PhantomData<C>,
}

/// The factory of settings.
pub(crate) type Maker = Makes<Settings>;

impl<C> Clone for Makes<C> {
    ghost is_clone = { λ _ _. ⊤ };

    fn clone(&self) -> Result<Makes<C>, AllocError> {
        Ok(Makes {
            kind: self.kind,
            waits: self.waits,
            denial: self.denial,
            config: PhantomData,
        })
    }
}

// A service of the kind, with a step more.
fn stepped(kind: Kind, step: u32) -> Serving {
    service_of(Kind {
        step: kind.step.wrapping_add(step),
        ..kind
    })
}

// What comes of a making: nothing where it is denied, or where there is no step.
fn outcome(kind: Kind, denial: Option<Denial>, step: Option<u32>) -> Result<Serving, Denial> {
    match denial {
        Some(denial) => Err(denial),
        None => match step {
            Some(step) => Ok(stepped(kind, step)),
            None => Err(Denial::Second),
        },
    }
}

impl<C: Configures, T: Number> ServiceFactory<T> for Makes<C> {
    type Response = u32;

    type Error = Fault;

    type Config = C;

    type Service = Serving;

    type InitError = Denial;

    type Future = Late<Ready<Result<Serving, Denial>>>;

    ghost may = { λ _ _ _ _. ⊤ };

    ghost may_ready = { λ _ _ _. ⊤ };

    ghost may_begin = { λ _ _ _ f. GivesOnly ⟦<Ready<Result<u32, Fault>> as Future>⟧ f (λ _. ⊤) };

    ghost may_init = { λ _ _ _. ⊤ };

    ghost may_make = { λ _ _. ⊤ };

    ghost begun_gives = { λ s c q f h. h };

    fn new_service(&self, cfg: C) -> Late<Ready<Result<Serving, Denial>>> {
        Late {
            waits: self.waits,
            future: ready(outcome(self.kind, self.denial, cfg.step())),
        }
    }
}

/// A factory that makes services of the kind at once.
pub(crate) fn made_at_once<C>(kind: Kind) -> Makes<C> {
    made_late(0, kind)
}

/// A factory that makes services of the kind after some polls.
pub(crate) fn made_late<C>(waits: u32, kind: Kind) -> Makes<C> {
    Makes {
        kind,
        waits,
        denial: None,
        config: PhantomData,
    }
}

/// A factory that makes no service, and says so after some polls.
pub(crate) fn denies<C>(waits: u32, denial: Denial) -> Makes<C> {
    Makes {
        kind: echo(),
        waits,
        denial: Some(denial),
        config: PhantomData,
    }
}
