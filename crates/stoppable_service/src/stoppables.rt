//! What a server asks for the services of its connections.
ghost use Rattle.std.specs.Prelude.{◌≡◌, ⊤, Ok};
ghost use Rattle.futures.specs.declared.task.Poll.TheVariants.{Ready as PollReady};

use crate::stop_handle::StopHandle;
use crate::stoppable::Stoppable;
use server_run::ServerServiceFactory;
use service_core::Link;
use std::alloc::{AllocError, Global};
use std::sync::{Arc, Wait};

/// Makes a service for each listener, all of which stop the server by the same handle.
#[derive(Drop)]
pub struct Stoppables<W> {
    stop: Arc<StopHandle<W>>,
}

impl<W> Stoppables<W> {
    /// They stop it by this one.
    pub fn new(stop: Arc<StopHandle<W>>) -> Stoppables<W> {
        Stoppables { stop }
    }
}

impl<W: Drop> Clone for Stoppables<W> {
    fn clone(&self) -> Result<Stoppables<W>, AllocError> {
        Ok(Stoppables::new(Arc::try_clone(&self.stop)?))
    }
}

impl<L: Link, W: Wait + Drop> ServerServiceFactory<L> for Stoppables<W> {
    type Factory = Stoppable<W>;

    ghost may_serve = { λ _ _ link ended. L.identity ended.link ≡ L.identity link };

    ghost may_leave = { λ _ _ link back. L.identity back ≡ L.identity link };

    ghost may_ready = { λ _ _ answer. answer ≡ PollReady (Ok tt) };

    ghost may_init = { λ _ _ _. ⊤ };

    ghost may_make = { λ _ _. ⊤ };

    fn create(&self, alloc: Global, _token: usize) -> Result<Stoppable<W>, AllocError> {
        Stoppable::over(alloc, &self.stop)
    }

    ghost same_served = { λ _ _ _ _ same. same };

    ghost same_left = { λ _ _ _ _ same. same };
}
