//! The service of connections, and what makes it.
ghost use Rattle.std.specs.Prelude.{◌≡◌, ⊤, Some, Ok};
ghost use Rattle.std.proofs.Common.{rules};
ghost use Rattle.futures.specs.declared.task.Poll.TheVariants.{Ready as PollReady};
ghost use Rattle.greeting_service.specs.Greeting.{EndsOf};

use crate::greeting::Greeting;
use crate::words::Words;
use futures::task::{Context, Poll};
use service_core::{Ended, Link, Octets, Ready, Service, ServiceFactory, ok};
use std::alloc::{AllocError, Global};

/// Greets each connection.
#[derive(Clone, Copy)]
pub struct Greeter {
    /// Where its connections take their memory.
    pub alloc: Global,
    /// What it says.
    pub words: Words,
}

impl<L: Link> Service<L> for Greeter {
    type Response = Ended<L>;

    type Error = ();

    type Future = Greeting<L>;

    ghost may = { λ _ link. EndsOf L.Link link };

    ghost may_ready = { λ _ answer. answer ≡ PollReady (Ok tt) };

    ghost may_begin = { λ _ link f. f.link ≡ Some link };

    ghost begun_gives = { Prim.search rules };

    fn poll_ready(&self, _cx: &mut Context<'_>) -> Poll<Result<(), ()>> {
        Poll::Ready(Ok(()))
    }

    fn call(&self, link: L) -> Greeting<L> {
        Greeting {
            link: Some(link),
            words: self.words,
            line: Octets::new(self.alloc),
            answer: Octets::new(self.alloc),
        }
    }
}

/// It makes itself.
impl<L: Link> ServiceFactory<L> for Greeter {
    type Response = Ended<L>;

    type Error = ();

    type Config = ();

    type Service = Greeter;

    type InitError = AllocError;

    type Future = Ready<Result<Greeter, AllocError>>;

    ghost may = { λ _ _ link. EndsOf L.Link link };

    ghost may_ready = { λ _ _ answer. answer ≡ PollReady (Ok tt) };

    ghost may_begin = { λ _ _ link f. f.link ≡ Some link };

    ghost may_init = { λ _ _ _. ⊤ };

    ghost may_make = { λ _ _. ⊤ };

    ghost begun_gives = { Prim.search rules };

    fn new_service(&self, _cfg: ()) -> Ready<Result<Greeter, AllocError>> {
        ok(*self)
    }
}
