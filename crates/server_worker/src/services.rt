ghost use Rattle.std.specs.Prelude.{◌≡◌, ℕ, true, false, length, slice_get};
ghost use Rattle.worker_core.specs.WorkerCore.{status_of};
ghost use Rattle.server_worker.specs.Standing.{fits_at};

use crate::slot::Slot;
use worker_core::WorkerCore;

/// The services of a worker, by token.
#[derive(Drop)]
pub(crate) struct Services<Fac, Fut, S, E> {
    // What each token's services are made from.
    pub(crate) factories: Vec<Fac>,
    pub(crate) slots: Vec<Slot<Fut, S, E>>,
    pub(crate) core: WorkerCore,
    // All were made.
    pub(crate) made: bool,
    ghost as_many: { length slots.items ≡ length core.services },
    ghost as_many_factories: { length factories.items ≡ length core.services },
    // The core knows of each service whether it stands.
    ghost fits: { (token : ℕ) → fits_at (status_of core token) (slice_get slots.items token) ≡ true },
    ghost goes_on: { (core.draining ≡ false) × (core.left ≡ false) },
}
