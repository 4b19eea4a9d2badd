//! A listener that gives nothing.
ghost use Rattle.std.specs.Prelude.{◌≡◌, None};

use crate::tally::Tally;
use server_run::{Accepted, Listener, MemoryLink};

// So often it is asked at most before it ends. Only where no service errs is it too few.
const PATIENCE: u32 = 5_000;

/// Gives nothing, and ends once a service is asked for in the place of one that erred.
#[derive(Drop)]
pub(crate) struct Ending {
    tally: Tally,
    has_ended: bool,
    patience: u32,
    waits: u64,
}

impl Ending {
    /// It tells that tally of its end.
    pub(crate) fn new(tally: Tally) -> Ending {
        Ending {
            tally,
            has_ended: false,
            patience: PATIENCE,
            waits: 0,
        }
    }

    // Whether it ends now.
    fn ends(&mut self) -> bool
        ensures waits { self.new.waits ≡ self.old.waits }
        ensures ended { self.new.has_ended ≡ self.old.has_ended }
    {
        if self.tally.is_asked() {
            return true;
        }
        if self.patience == 0 {
            self.tally.give_up();
            return true;
        }
        self.patience -= 1;
        false
    }
}

impl Listener for Ending {
    type Link = MemoryLink;

    ghost left = { λ _. None };

    ghost given = { λ _. 0 };

    ghost ended = { λ ending. ending.has_ended };

    ghost waits = { λ ending. ending.waits };

    ghost skips = { λ _. 0 };

    ghost faults = { λ _. 0 };

    ghost at_end = { λ _ _. tt };

    fn accept(&mut self) -> Accepted<MemoryLink> {
        if self.has_ended {
            return Accepted::Ended;
        }
        if self.ends() {
            self.has_ended = true;
            self.tally.end();
            return Accepted::Ended;
        }
        self.waits = self.waits.saturating_add(1);
        Accepted::NotYet
    }
}
