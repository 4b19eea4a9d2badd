//! A job that tells its number.
ghost use Rattle.std.specs.Prelude.{⊤};

use server_jobs::{Job, Waiter};
use server_run::Host;

/// Hands over the number of its seat, and is done.
#[derive(Drop)]
pub(crate) struct Numbered;

impl Job for Numbered {
    type Out = usize;

    ghost can_work = { λ _. ⊤ };

    ghost promise = { λ _ _. ⊤ };

    fn work<Ho: Host>(self, waiter: Waiter<Ho>) -> usize {
        waiter.number()
    }
}
