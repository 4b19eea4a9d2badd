ghost use Rattle.std.specs.Prelude.{◌≡◌, ◌+◌, ◌<◌, [], ◌∷◌};
ghost use Rattle.server_run.specs.Done.{Adds, counted_small};

use server_run::{Done, Entry, KeepAll, MemoryLink};
use std::alloc::{AllocError, Global};

/// Keeps what came back, and makes room so often.
#[derive(Drop)]
pub(crate) struct Book {
    kept: KeepAll<MemoryLink>,
    rooms: u64,
    // There was no memory.
    short: bool,
}

impl Book {
    /// An empty one.
    pub(crate) fn new(alloc: Global, rooms: u64) -> Book {
        Book {
            kept: KeepAll::new(alloc),
            rooms,
            short: false,
        }
    }

    /// What came back, in order.
    pub(crate) fn entries(&self) -> &[Entry<MemoryLink>] {
        self.kept.entries()
    }

    /// Whether there was no memory.
    pub(crate) fn is_short(&self) -> bool {
        self.short
    }
}

impl Done<MemoryLink> for Book {
    ghost taken = { λ book. ⟦<KeepAll<MemoryLink> as Done<MemoryLink>>⟧.taken book.kept };

    ghost count = { λ book. ⟦<KeepAll<MemoryLink> as Done<MemoryLink>>⟧.count book.kept };

    ghost served = { λ book. ⟦<KeepAll<MemoryLink> as Done<MemoryLink>>⟧.served book.kept };

    ghost spare = { λ book. ⟦<KeepAll<MemoryLink> as Done<MemoryLink>>⟧.spare book.kept };

    fn make_room(&mut self, n: u64) -> Result<(), AllocError> {
        if self.rooms == 0 {
            return Err(AllocError);
        }
        self.rooms -= 1;
        let made = self.kept.make_room(n);
        if made.is_err() {
            self.short = true;
        }
        made
    }

    fn take(&mut self, entry: Entry<MemoryLink>)
        requires { 0 < ⟦<Book as Done<MemoryLink>>⟧.spare self.old }
        ensures entry { Adds ⟦<Book as Done<MemoryLink>>⟧.taken ⟦<Book as Done<MemoryLink>>⟧.count ⟦<Book as Done<MemoryLink>>⟧.served self.old self.new (entry ∷ []) }
        ensures spare { ⟦<Book as Done<MemoryLink>>⟧.spare self.new + 1 ≡ ⟦<Book as Done<MemoryLink>>⟧.spare self.old }
    {
        self.kept.take(entry);
    }

    ghost small = { λ _. (counted_small _, counted_small _) };
}
