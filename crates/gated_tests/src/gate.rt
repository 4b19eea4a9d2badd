//! The service of requests.
ghost use Rattle.std.specs.Prelude.{◌≡◌, ⊤, Ok};
ghost use Rattle.futures.specs.declared.task.Poll.TheVariants.{Ready as PollReady};
ghost use Rattle.service_core.specs.Meaning.{GivesOnly};

use crate::call::Call;
use crate::flags::Flags;
use futures::Future;
use futures::task::{Context, Poll};
use http1_plain::{Request, Response};
use service_core::{Ready, Service, ServiceFactory, ready};
use std::alloc::{AllocError, Global};

/// Answers a request where the other request is being answered too. It is the factory of such services as well.
#[derive(Drop)]
pub(crate) struct Gate<F> {
    pub(crate) alloc: Global,
    pub(crate) flags: F,
}

impl<F: Flags> Gate<F> {
    // One of the same flags.
    fn copy(&self) -> Result<Gate<F>, AllocError> {
        Ok(Gate {
            alloc: self.alloc,
            flags: self.flags.clone()?,
        })
    }
}

// The number of the flag of a target: 0 of `/0`, and else 1.
fn number_of(target: &[u8]) -> usize {
    if target == b"/0".as_slice() { 0 } else { 1 }
}

impl<F: Flags> Service<Request> for Gate<F> {
    type Response = Response;

    type Error = AllocError;

    type Future = Call<F>;

    ghost may = { λ _ _ _. ⊤ };

    ghost may_ready = { λ _ answer. answer ≡ PollReady (Ok tt) };

    ghost may_begin = { λ _ _ f. GivesOnly ⟦<Call<F> as Future>⟧ f (λ _. ⊤) };

    ghost begun_gives = { λ _ _ _ begun. begun };

    fn poll_ready(&self, _cx: &mut Context<'_>) -> Poll<Result<(), AllocError>> {
        Poll::Ready(Ok(()))
    }

    fn call(&self, req: Request) -> Call<F> {
        Call {
            alloc: self.alloc,
            flags: self.flags.clone().ok(),
            number: number_of(req.head.target.as_bytes()),
        }
    }
}

impl<F: Flags> ServiceFactory<Request> for Gate<F> {
    type Response = Response;

    type Error = AllocError;

    type Config = ();

    type Service = Gate<F>;

    type InitError = AllocError;

    type Future = Ready<Result<Gate<F>, AllocError>>;

    ghost may = { λ _ _ _ _. ⊤ };

    ghost may_ready = { λ _ _ answer. answer ≡ PollReady (Ok tt) };

    ghost may_begin = { λ _ _ _ f. GivesOnly ⟦<Call<F> as Future>⟧ f (λ _. ⊤) };

    ghost may_init = { λ _ _ _. ⊤ };

    ghost may_make = { λ _ _. ⊤ };

    ghost begun_gives = { λ _ _ _ _ begun. begun };

    fn new_service(&self, _cfg: ()) -> Ready<Result<Gate<F>, AllocError>> {
        ready(self.copy())
    }
}
