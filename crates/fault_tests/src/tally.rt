//! What the services of a run count together.
use std::alloc::{AllocError, Global};
use std::sync::Arc;
use std::sync::atomic::Ordering::SeqCst;
use std::sync::atomic::{AtomicBool, AtomicU64};

// So often it looks at a count that is awaited, which takes about a millisecond.
const LOOKS: u32 = 1_000_000;

// Whether it is set, or soon will be.
fn comes(flag: &AtomicBool) -> bool {
    for _ in 0..LOOKS {
        if flag.load(SeqCst) {
            return true;
        }
    }
    false
}

/// The numbers of a tally.
#[derive(Drop)]
struct Numbers {
    copies: AtomicU64,
    begun: AtomicU64,
    refused: AtomicU64,
    asked: AtomicBool,
    ended: AtomicBool,
    given_up: AtomicBool,
}

/// What all services of a run count, in one place.
#[derive(Drop)]
pub(crate) struct Tally {
    numbers: Arc<Numbers>,
}

impl Tally {
    /// Nothing is counted.
    pub(crate) fn new(alloc: Global) -> Result<Tally, AllocError> {
        let numbers = Numbers {
            copies: AtomicU64::new(0),
            begun: AtomicU64::new(0),
            refused: AtomicU64::new(0),
            asked: AtomicBool::new(false),
            ended: AtomicBool::new(false),
            given_up: AtomicBool::new(false),
        };
        Ok(Tally {
            numbers: Arc::new(alloc, numbers)?,
        })
    }

    /// The same tally once more.
    pub(crate) fn share(&self) -> Result<Tally, AllocError> {
        Ok(Tally {
            numbers: Arc::try_clone(&self.numbers)?,
        })
    }

    /// Counts a copy of the factory. How many there were before.
    pub(crate) fn count_copy(&self) -> u64 {
        self.numbers.copies.fetch_add(1, SeqCst)
    }

    /// Counts a connection that a service began with.
    pub(crate) fn count_begun(&self) {
        self.numbers.begun.fetch_add(1, SeqCst);
    }

    /// Counts a service that was refused where another one had erred.
    pub(crate) fn count_refused(&self) {
        self.numbers.refused.fetch_add(1, SeqCst);
    }

    /// How many services were refused where others had erred.
    pub(crate) fn refused(&self) -> u64 {
        self.numbers.refused.load(SeqCst)
    }

    /// Whether services began with so many connections, or soon will have.
    pub(crate) fn comes_to(&self, begun: u64) -> bool {
        for _ in 0..LOOKS {
            if self.numbers.begun.load(SeqCst) >= begun {
                return true;
            }
        }
        false
    }

    /// A service is asked for in the place of one that erred.
    pub(crate) fn ask(&self) {
        self.numbers.asked.store(true, SeqCst);
    }

    /// Whether a service is asked for in the place of one that erred, or soon will be.
    pub(crate) fn is_asked(&self) -> bool {
        comes(&self.numbers.asked)
    }

    /// The listener has ended.
    pub(crate) fn end(&self) {
        self.numbers.ended.store(true, SeqCst);
    }

    /// Whether the listener has ended, or soon will have.
    pub(crate) fn ends(&self) -> bool {
        comes(&self.numbers.ended)
    }

    /// Something was awaited that did not come.
    pub(crate) fn give_up(&self) {
        self.numbers.given_up.store(true, SeqCst);
    }

    /// Whether something was awaited that did not come.
    pub(crate) fn gave_up(&self) -> bool {
        self.numbers.given_up.load(SeqCst)
    }
}
