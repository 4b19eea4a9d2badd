ghost use Rattle.std.specs.Prelude.{◌≡◌, ◌+◌, ◌^◌, ◌<◌, ◌≤◌, ◌∷◌, [], None, Ok};
ghost use Rattle.server_run.specs.Done.{Adds, Keeps};

use server_run::{Done, Entry};
use std::alloc::AllocError;

/// Closes the link of each connection that it is given, and counts them. It takes no memory.
#[derive(Debug, Drop)]
pub struct CloseAll {
    entries: u64,
    served: u64,
    spare: u64,
    ghost small: { (entries < 2 ^ 64) × (served < 2 ^ 64) },
}

impl CloseAll {
    /// It was given nothing.
    pub fn new() -> CloseAll
        ensures entries { ⟦<CloseAll as Done<()>>⟧.count result ≡ 0 }
        ensures served { ⟦<CloseAll as Done<()>>⟧.served result ≡ 0 }
    {
        CloseAll {
            entries: 0,
            served: 0,
            spare: 0,
        }
    }

    /// How many connections it was given. At u64's greatest it stays.
    pub fn entries(&self) -> u64
        ensures { result ≡ ⟦<CloseAll as Done<()>>⟧.count self.now }
    {
        self.entries
    }

    /// How many of them were served. At u64's greatest it stays.
    pub fn served(&self) -> u64
        ensures { result ≡ ⟦<CloseAll as Done<()>>⟧.served self.now }
    {
        self.served
    }
}

impl<L: Drop> Done<L> for CloseAll {
    ghost taken = { λ _. None };

    ghost count = { λ done. done.entries };

    ghost served = { λ done. done.served };

    ghost spare = { λ done. done.spare };

    /// It is never refused.
    fn make_room(&mut self, n: u64) -> Result<(), AllocError>
        ensures made { result ≡ Ok tt }
        ensures room { n ≤ self.new.spare }
        ensures same { Keeps ⟦<CloseAll as Done<L>>⟧.taken ⟦<CloseAll as Done<L>>⟧.count ⟦<CloseAll as Done<L>>⟧.served self.old self.new }
    {
        self.spare = self.spare.max(n);
        Ok(())
    }

    fn take(&mut self, entry: Entry<L>)
        requires { 0 < self.old.spare }
        ensures entry { Adds ⟦<CloseAll as Done<L>>⟧.taken ⟦<CloseAll as Done<L>>⟧.count ⟦<CloseAll as Done<L>>⟧.served self.old self.new (entry ∷ []) }
        ensures spare { self.new.spare + 1 ≡ self.old.spare }
    {
        self.spare -= 1;
        self.entries = self.entries.saturating_add(1);
        let served = u64::from(entry.outcome.is_served());
        self.served = self.served.saturating_add(served);
    }

    ghost small = { λ done. done.small };
}
