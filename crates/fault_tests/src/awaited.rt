use crate::tally::Tally;

// So many polls it is awaited, which take a second or more. Only where a worker found no memory, or was not replaced, are they too few.
const PATIENCE: u32 = 2_000;

/// What a connection waits for: that services began with so many.
#[derive(Drop)]
pub(crate) struct Awaited {
    tally: Tally,
    begun: u64,
    patience: u32,
}

impl Awaited {
    /// It waits until so many are counted there.
    pub(crate) fn new(tally: Tally, begun: u64) -> Awaited {
        Awaited {
            tally,
            begun,
            patience: PATIENCE,
        }
    }

    /// Whether it has come, or was given up.
    pub(crate) fn has_come(&mut self) -> bool {
        if self.tally.comes_to(self.begun) {
            return true;
        }
        if self.patience == 0 {
            self.tally.give_up();
            return true;
        }
        self.patience -= 1;
        false
    }
}
