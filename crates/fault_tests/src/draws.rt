//! A seeded generator.
use std::cell::Cell;

const FACTOR: u64 = 6_364_136_223_846_793_005;

const SUMMAND: u64 = 1_442_695_040_888_963_407;

// The state behind a state.
fn after(state: u64) -> u64 {
    state.wrapping_mul(FACTOR).wrapping_add(SUMMAND)
}

/// Draws of a linear congruential generator.
#[derive(Drop)]
pub(crate) struct Draws {
    state: Cell<u64>,
}

impl Draws {
    /// Those that follow from the seed and a number.
    pub(crate) fn new(seed: u64, number: u64) -> Draws {
        Draws {
            state: Cell::new(after(after(seed) ^ number)),
        }
    }

    /// The next draw, a number of 31 bits.
    pub(crate) fn next(&self) -> u64 {
        let state = after(self.state.get());
        self.state.set(state);
        state >> 33
    }

    /// Whether the next draw is one of so many that are as likely.
    pub(crate) fn is_one_in(&self, count: u64) -> bool {
        self.next().checked_rem(count) == Some(0)
    }
}
