ghost use Rattle.std.specs.Prelude.{◌≡◌, ◌+◌, ◌≤◌, ◌<◌, [], ◌∷◌, Some, length, vec_len, vec_capacity};
ghost use Rattle.server_run.specs.Done.{Adds, counted, served_count, counted_small};

use crate::{Done, Entry};
use std::alloc::{AllocError, Global};

/// Keeps all entries, in the order in which they came.
#[derive(Debug, Drop)]
pub struct KeepAll<L> {
    entries: Vec<Entry<L>>,
    spare: u64,
    ghost room: { vec_len entries + spare ≤ vec_capacity entries },
}

impl<L: Drop> KeepAll<L> {
    /// No entries, and no memory.
    pub fn new(alloc: Global) -> KeepAll<L>
        ensures { result.entries.items ≡ [] }
    {
        KeepAll {
            entries: Vec::new(alloc),
            spare: 0,
        }
    }

    /// The entries that were taken, in order.
    pub fn entries(&self) -> &[Entry<L>]
        ensures { result.now ≡ self.now.entries.items }
    {
        &self.entries
    }
}

impl<L: Drop> Done<L> for KeepAll<L> {
    ghost taken = { λ done. Some done.entries.items };

    ghost count = { λ done. counted (length done.entries.items) };

    ghost served = { λ done. counted (served_count done.entries.items) };

    ghost spare = { λ done. done.spare };

    fn make_room(&mut self, n: u64) -> Result<(), AllocError> {
        if self.spare < n {
            self.entries.reserve(n as usize)?;
            self.spare = n;
        }
        Ok(())
    }

    fn take(&mut self, entry: Entry<L>)
        requires { 0 < self.old.spare }
        ensures entry { Adds ⟦<KeepAll<L> as Done<L>>⟧.taken ⟦<KeepAll<L> as Done<L>>⟧.count ⟦<KeepAll<L> as Done<L>>⟧.served self.old self.new (entry ∷ []) }
        ensures spare { self.new.spare + 1 ≡ self.old.spare }
    {
        self.spare -= 1;
        let Ok(()) = self.entries.push(entry) else {
            unreachable!()
        };
    }

    ghost small = { λ done. (counted_small (length done.entries.items), counted_small (served_count done.entries.items)) };
}
