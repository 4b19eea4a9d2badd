//! What a server asks for the services of its connections.
ghost use Rattle.std.specs.Prelude.{◌≡◌, ⊤, Ok};
ghost use Rattle.futures.specs.declared.task.Poll.TheVariants.{Ready as PollReady};

use crate::greeter::Greeter;
use crate::words::Words;
use server_run::ServerServiceFactory;
use service_core::Link;
use std::alloc::{AllocError, Global};

/// Makes a greeter for each listener: the connections of the first are told hello, and those of the others goodbye.
#[derive(Clone, Copy)]
pub struct Greeters;

impl<L: Link> ServerServiceFactory<L> for Greeters {
    type Factory = Greeter;

    ghost may_serve = { λ _ _ link ended. L.identity ended.link ≡ L.identity link };

    ghost may_leave = { λ _ _ link back. L.identity back ≡ L.identity link };

    ghost may_ready = { λ _ _ answer. answer ≡ PollReady (Ok tt) };

    ghost may_init = { λ _ _ _. ⊤ };

    ghost may_make = { λ _ _. ⊤ };

    fn create(&self, alloc: Global, token: usize) -> Result<Greeter, AllocError> {
        let words = if token == 0 {
            Words::Hello
        } else {
            Words::Goodbye
        };
        Ok(Greeter { alloc, words })
    }

    ghost same_served = { λ _ _ _ _ same. same };

    ghost same_left = { λ _ _ _ _ same. same };
}
