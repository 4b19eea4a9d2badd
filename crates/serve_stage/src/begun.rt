use crate::gated::comes_to;
use futures::Future;
use futures::task::{Context, Poll};
use std::sync::Arc;
use std::sync::atomic::AtomicU64;
use std::sync::atomic::Ordering::SeqCst;

/// A signal that comes once so many are counted. Where that takes more than so many polls, as where a service found no memory, the
/// count is set to the greatest number, and it comes too.
#[derive(Drop)]
pub struct Begun {
    count: Arc<AtomicU64>,
    after: u64,
    patience: u32,
}

impl Begun {
    /// The signal of this count.
    pub fn new(count: Arc<AtomicU64>, after: u64) -> Begun {
        Begun {
            count,
            after,
            patience: 1_000,
        }
    }
}

impl Future for Begun {
    type Output = ();

    fn poll(&mut self, cx: &mut Context<'_>) -> Poll<()> {
        if comes_to(&self.count, self.after) {
            return Poll::Ready(());
        }
        if self.patience == 0 {
            self.count.store(u64::MAX, SeqCst);
            return Poll::Ready(());
        }
        self.patience -= 1;
        cx.yield_now()
    }
}
