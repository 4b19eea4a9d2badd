ghost use Rattle.futures.specs.Poll.{IfReady, OnPending};
ghost use Rattle.futures.specs.Task.{Covers, Keeps};

use futures::Future;
use futures::task::{Context, Poll};
use std::alloc::{AllocError, Global};
use std::sync::Arc;
use std::sync::atomic::AtomicBool;
use std::sync::atomic::Ordering::SeqCst;

/// Becomes ready once a graceful stop was given, and stays so. Services that serve for long watch it, to end in time. It claims
/// nothing of when that is.
#[derive(Debug, Drop)]
pub struct GracefulShutdownSignal {
    is_raised: Arc<AtomicBool>,
}

impl GracefulShutdownSignal {
    // No stop was given.
    pub(crate) fn new(alloc: Global) -> Result<GracefulShutdownSignal, AllocError> {
        let is_raised = Arc::new(alloc, AtomicBool::new(false))?;
        Ok(GracefulShutdownSignal { is_raised })
    }

    // A graceful stop is given.
    pub(crate) fn raise(&self) {
        self.is_raised.store(true, SeqCst);
    }
}

impl Clone for GracefulShutdownSignal {
    /// The same signal.
    fn clone(&self) -> Result<GracefulShutdownSignal, AllocError> {
        let is_raised = Arc::try_clone(&self.is_raised)?;
        Ok(GracefulShutdownSignal { is_raised })
    }
}

impl Future for GracefulShutdownSignal {
    type Output = ();

    /// Where no graceful stop was given yet, the task is polled again.
    fn poll(&mut self, cx: &mut Context<'_>) -> Poll<()> {
        if self.is_raised.load(SeqCst) {
            return Poll::Ready(());
        }
        cx.yield_now()
    }
}
