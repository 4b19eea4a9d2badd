//! The flags that calls raise.
ghost use Rattle.std.specs.Prelude.{⊤};

use std::alloc::{AllocError, Global};
use std::sync::Arc;
use std::sync::atomic::{AtomicBool, Ordering};

/// Two flags that all clones share.
pub(crate) trait Flags: Clone + Drop {
    /// Raises the flag of that number.
    fn raise(&self, number: usize);

    /// Whether the flag of that number is raised.
    fn is_raised(&self, number: usize) -> bool;
}

/// The words of two flags.
#[derive(Drop)]
pub(crate) struct Words {
    first: AtomicBool,
    second: AtomicBool,
}

impl Words {
    // The flag of that number.
    fn word(&self, number: usize) -> &AtomicBool {
        if number == 0 {
            &self.first
        } else {
            &self.second
        }
    }
}

/// Two flags that threads share.
#[derive(Drop)]
pub(crate) struct SharedFlags {
    words: Arc<Words>,
}

impl SharedFlags {
    /// Two flags that are not raised.
    pub(crate) fn new(alloc: Global) -> Result<SharedFlags, AllocError> {
        let words = Words {
            first: AtomicBool::new(false),
            second: AtomicBool::new(false),
        };
        Ok(SharedFlags {
            words: Arc::new(alloc, words)?,
        })
    }
}

impl Clone for SharedFlags {
    ghost is_clone = { λ _ _. ⊤ };

    fn clone(&self) -> Result<SharedFlags, AllocError> {
        Ok(SharedFlags {
            words: Arc::try_clone(&self.words)?,
        })
    }
}

impl Flags for SharedFlags {
    fn raise(&self, number: usize) {
        self.words.word(number).store(true, Ordering::SeqCst);
    }

    fn is_raised(&self, number: usize) -> bool {
        self.words.word(number).load(Ordering::SeqCst)
    }
}
