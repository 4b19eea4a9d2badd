//! What makes the service of connections.
ghost use Rattle.std.specs.Prelude.{◌≡◌, ⊤, Some, Ok};
ghost use Rattle.std.proofs.Common.{rules};
ghost use Rattle.futures.specs.declared.task.Poll.TheVariants.{Ready as PollReady};
ghost use Rattle.stoppable_service.specs.Answering.{EndsOf};

use crate::answering::Answering;
use crate::stoppable::Stoppable;
use service_core::{Ended, Link, Ready, Service, ServiceFactory, ready};
use std::alloc::AllocError;
use std::sync::Wait;

/// It makes its like.
impl<L: Link, W: Wait + Drop> ServiceFactory<L> for Stoppable<W> {
    type Response = Ended<L>;

    type Error = ();

    type Config = ();

    type Service = Stoppable<W>;

    type InitError = AllocError;

    type Future = Ready<Result<Stoppable<W>, AllocError>>;

    ghost may = { λ _ _ link. EndsOf L.Link link };

    ghost may_ready = { λ _ _ answer. answer ≡ PollReady (Ok tt) };

    ghost may_begin = { λ _ _ link f. f.link ≡ Some link };

    ghost may_init = { λ _ _ _. ⊤ };

    ghost may_make = { λ _ _. ⊤ };

    ghost begun_gives = { Prim.search rules };

    fn new_service(&self, _cfg: ()) -> Ready<Result<Stoppable<W>, AllocError>> {
        ready(Stoppable::over(self.alloc, &self.stop))
    }
}
