//! The transform of the tests.
ghost use Rattle.std.specs.Prelude.{⊤};

use crate::makers::Late;
use crate::words::Failure;
use futures::task::{Context, Poll};
use service_core::{Ready, Service, Transform, err, ok};

/// Asks its service for so many times the number.
#[derive(Drop)]
pub(crate) struct Asks<S> {
    factor: u32,
    service: S,
}

impl<S: Service<u32>> Service<u32> for Asks<S> {
    type Response = S::Response;

    type Error = S::Error;

    type Future = S::Future;

    ghost can_call = { λ d. S.can_call d.service };

    ghost may = { λ d _ r. (q : _) × S.may d.service q r };

    ghost may_ready = { λ d. S.may_ready d.service };

    ghost may_begin = { λ d _ f. (q : _) × S.may_begin d.service q f };

    ghost begun_gives = { λ d _ f begun. let gives = S.begun_gives d.service begun.0 f begun.1 in
        (gives.0, λ r given. (begun.0, gives.1 r given)) };

    fn poll_ready(&self, cx: &mut Context<'_>) -> Poll<Result<(), S::Error>> {
        self.service.poll_ready(cx)
    }

    fn call(&self, req: u32) -> S::Future {
        self.service.call(req.wrapping_mul(self.factor))
    }
}

/// Puts `Asks` over each service after some polls, unless it is broken.
#[derive(Clone, Copy, Drop)]
pub(crate) struct Asking {
    pub(crate) factor: u32,
    pub(crate) waits: u32,
    pub(crate) is_broken: bool,
}

/// A transform that wraps at once.
pub(crate) fn times(factor: u32) -> Asking {
    Asking {
        factor,
        waits: 0,
        is_broken: false,
    }
}

impl<S: Service<u32> + Drop> Transform<S, u32> for Asking {
    type Response = S::Response;

    type Error = S::Error;

    type Transform = Asks<S>;

    type InitError = Failure;

    type Future = Late<Ready<Result<Asks<S>, Failure>>>;

    ghost can_make = { λ _ s. S.can_call s };

    ghost may = { λ _ s _ r. (q : _) × S.may s q r };

    ghost may_ready = { λ _ s. S.may_ready s };

    ghost may_init = { λ _ _. ⊤ };

    ghost may_make = { λ _. ⊤ };

    fn new_transform(&self, service: S) -> Late<Ready<Result<Asks<S>, Failure>>> {
        let waits = self.waits;
        if self.is_broken {
            return Late {
                waits,
                future: err(Failure::Broken),
            };
        }
        Late {
            waits,
            future: ok(Asks {
                factor: self.factor,
                service,
            }),
        }
    }
}
