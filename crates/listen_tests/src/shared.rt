//! What two links share with the test.
use std::alloc::{AllocError, Global};
use std::sync::Arc;
use std::sync::atomic::{AtomicBool, AtomicU64, Ordering};

// How often a link reads the other's flag.
const READS: u32 = 1_000_000_000;

/// The flag of a link, and how many bytes its writes took.
#[derive(Drop)]
struct Side {
    raised: AtomicBool,
    written: AtomicU64,
}

/// The sides of two links, and whether one of them read the other's flag to no end.
#[derive(Drop)]
pub(crate) struct Sides {
    first: Side,
    second: Side,
    missed: AtomicBool,
}

impl Side {
    // A flag that is not raised, and no bytes.
    fn new() -> Side {
        Side {
            raised: AtomicBool::new(false),
            written: AtomicU64::new(0),
        }
    }
}

impl Sides {
    // The side of the link of that number, 0 or 1.
    fn of(&self, number: usize) -> &Side {
        if number == 0 {
            &self.first
        } else {
            &self.second
        }
    }
}

/// The flags and the numbers of two links, which threads share.
#[derive(Drop)]
pub(crate) struct Shared {
    sides: Arc<Sides>,
}

impl Shared {
    /// No flag is raised, and both numbers are 0.
    pub(crate) fn new(alloc: Global) -> Result<Shared, AllocError> {
        let sides = Sides {
            first: Side::new(),
            second: Side::new(),
            missed: AtomicBool::new(false),
        };
        Ok(Shared {
            sides: Arc::new(alloc, sides)?,
        })
    }

    /// The same flags and numbers once more.
    pub(crate) fn share(&self) -> Result<Shared, AllocError> {
        Ok(Shared {
            sides: Arc::try_clone(&self.sides)?,
        })
    }

    /// Raises a link's flag, and reads the other's until it is raised. False says that it never was.
    pub(crate) fn meet(&self, number: usize) -> bool {
        let other = if number == 0 { 1 } else { 0 };
        self.sides.of(number).raised.store(true, Ordering::SeqCst);
        for _ in 0..READS {
            if self.is_raised(other) {
                return true;
            }
        }
        self.sides.missed.store(true, Ordering::SeqCst);
        false
    }

    /// Whether a link's flag is raised.
    pub(crate) fn is_raised(&self, number: usize) -> bool {
        self.sides.of(number).raised.load(Ordering::SeqCst)
    }

    /// Whether both flags were raised, and a link read the other's to no end before.
    pub(crate) fn came_apart(&self) -> bool {
        self.sides.missed.load(Ordering::SeqCst) && self.is_raised(0) && self.is_raised(1)
    }

    /// A link's writes took so many more bytes.
    pub(crate) fn add_written(&self, number: usize, bytes: u64) {
        self.sides
            .of(number)
            .written
            .fetch_add(bytes, Ordering::SeqCst);
    }

    /// How many bytes a link's writes took.
    pub(crate) fn written(&self, number: usize) -> u64 {
        self.sides.of(number).written.load(Ordering::SeqCst)
    }
}
