//! The service of connections.
ghost use Rattle.std.specs.Prelude.{◌≡◌, Some, Ok};
ghost use Rattle.std.proofs.Common.{rules};
ghost use Rattle.futures.specs.declared.task.Poll.TheVariants.{Ready as PollReady};
ghost use Rattle.stoppable_service.specs.Answering.{EndsOf};

use crate::answering::Answering;
use crate::stop_handle::StopHandle;
use futures::task::{Context, Poll};
use service_core::{Ended, Link, Octets, Service};
use std::alloc::{AllocError, Global};
use std::sync::{Arc, Wait};

/// Answers each connection.
#[derive(Drop)]
pub struct Stoppable<W> {
    /// Where its connections take their memory.
    pub alloc: Global,
    /// What it stops the server by.
    pub stop: Arc<StopHandle<W>>,
}

impl<L: Link, W: Wait + Drop> Service<L> for Stoppable<W> {
    type Response = Ended<L>;

    type Error = ();

    type Future = Answering<L, W>;

    ghost may = { λ _ link. EndsOf L.Link link };

    ghost may_ready = { λ _ answer. answer ≡ PollReady (Ok tt) };

    ghost may_begin = { λ _ link f. f.link ≡ Some link };

    ghost begun_gives = { Prim.search rules };

    fn poll_ready(&self, _cx: &mut Context<'_>) -> Poll<Result<(), ()>> {
        Poll::Ready(Ok(()))
    }

    fn call(&self, link: L) -> Answering<L, W> {
        Answering {
            link: Some(link),
            stop: Arc::try_clone(&self.stop).ok(),
            request: Octets::new(self.alloc),
            answer: Octets::new(self.alloc),
        }
    }
}

impl<W> Stoppable<W> {
    // One that shares what stops the server.
    pub(crate) fn over(
        alloc: Global,
        stop: &Arc<StopHandle<W>>,
    ) -> Result<Stoppable<W>, AllocError> {
        let stop = Arc::try_clone(stop)?;
        Ok(Stoppable { alloc, stop })
    }
}
