//! How the accepting thread waits, and wakes the workers.
ghost use Rattle.std.specs.Prelude.{◌≡◌, ℕ};

use server_jobs::Spawner;
use server_run::Host;

// A spawner, with no word on what starts a thread, for loops that only wait and wake.
pub(crate) trait Rests<Ho> {
    // How many jobs it started, and how many starts were refused.
    ghost counts: { Self → ℕ × ℕ };

    // Waits up to 10 ms, or not at all where it is busy.
    fn rest_for(&mut self, rt: &Ho, busy: bool)
        ensures { counts self.new ≡ counts self.old };

    // Wakes the job whose seat has that number.
    fn ring_for(&mut self, number: usize)
        ensures { counts self.new ≡ counts self.old };
}

impl<Ho: Host, Sp: Spawner> Rests<Ho> for Sp {
    ghost counts = { λ spawner. (Sp.starts spawner, Sp.refusals spawner) };

    fn rest_for(&mut self, rt: &Ho, busy: bool) {
        self.rest(rt, busy);
    }

    fn ring_for(&mut self, number: usize) {
        self.ring(number);
    }
}
