ghost use Rattle.std.specs.Prelude.{◌≡◌, ◌+◌, ◌^◌, ◌<◌, ◌≤◌, ℕ, List, [], ◌∷◌, Option, OnOk, OnErr};
ghost use Rattle.server_run.specs.Done.{Adds, Keeps};
ghost use Rattle.server_run.specs.declared.entry.Entry.{Entry};

use crate::Entry;
use std::alloc::AllocError;

/// Where the server hands the connections that it is done with.
pub trait Done<L> {
    // The entries that it was given, where it tells them.
    ghost taken: { Self → Option (List (Entry L)) };

    // How many it was given. At u64's greatest it stays.
    ghost count: { Self → ℕ };

    // How many of these were served. At u64's greatest it stays.
    ghost served: { Self → ℕ };

    // For how many more there is room.
    ghost spare: { Self → ℕ };

    /// Makes room for `n` entries. It is refused only for want of memory, and then there is as much room as before.
    fn make_room(&mut self, n: u64) -> Result<(), AllocError>
        ensures room { OnOk result (n ≤ spare self.new) }
        ensures kept { OnErr result (spare self.new ≡ spare self.old) }
        ensures same { Keeps taken count served self.old self.new };

    /// Takes an entry, for which there is room.
    fn take(&mut self, entry: Entry<L>)
        requires { 0 < spare self.old }
        ensures entry { Adds taken count served self.old self.new (entry ∷ []) }
        ensures spare { spare self.new + 1 ≡ spare self.old };

    // The counts stand still at the last `u64`.
    ghost small: { (done : Self) → (count done < 2 ^ 64) × (served done < 2 ^ 64) };
}
