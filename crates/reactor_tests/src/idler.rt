//! The job of the tests.
ghost use Rattle.std.specs.Prelude.{⊤};

use server_jobs::{Job, Waiter};
use server_run::Host;
use std::sync::atomic::AtomicBool;
use std::sync::atomic::Ordering::SeqCst;
use std::sync::{Arc, Wait};
use std::time::Clock;

// So many waits of 10 ms are enough.
const WAITS: u32 = 1_000;

/// Waits until it is told to stop. It hands over whether it was, and whether its first wait was a sleep, as that of its host is.
#[derive(Drop)]
pub(crate) struct Idler {
    pub(crate) stop: Arc<AtomicBool>,
}

// Waits until the flag is up. Whether it ever was.
fn idle<Ho: Drop + Wait + Clock>(stop: &AtomicBool, waiter: Waiter<Ho>) -> (bool, bool) {
    let mut waiter = waiter;
    let sleeps = waiter.is_tired();
    for _ in 0..WAITS {
        if stop.load(SeqCst) {
            waiter.leave();
            return (true, sleeps);
        }
        waiter.ring();
        waiter.wait();
    }
    (false, sleeps)
}

impl Job for Idler {
    type Out = (bool, bool);

    ghost can_work = { λ _. ⊤ };

    ghost promise = { λ _ _. ⊤ };

    fn work<Ho: Host>(self, waiter: Waiter<Ho>) -> (bool, bool) {
        idle(&self.stop, waiter)
    }
}
