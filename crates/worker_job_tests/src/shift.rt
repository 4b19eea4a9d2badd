//! The job of the tests.
ghost use Rattle.std.specs.Prelude.{◌<◌};
ghost use Rattle.rtrb.specs.Ring.{known_free};
ghost use Rattle.server_jobs.specs.Joins.{Accounts};

use crate::plan::{LISTENERS, Plan};
use crate::tag::Tag;
use rtrb::{Consumer, Producer};
use server_jobs::{Handed, Job, Note, Parcel, Waiter};
use server_run::Host;
use service_core::Link;
use std::alloc::Global;
use worker_job::{Departure, WorkerJob, what_is_handed_over_is_accounted_for};

/// What it hands over.
pub(crate) type Done = Handed<Tag, Plan, Departure<usize, usize>>;

/// Does the job of a worker, which it makes of these parts in its thread. Its type names nothing that the plan makes, so what
/// holds one that runs need not name it.
#[derive(Drop)]
pub(crate) struct Shift {
    pub(crate) alloc: Global,
    pub(crate) parcels: Consumer<Parcel<Tag>>,
    pub(crate) notes: Producer<Note<Tag>>,
    pub(crate) plan: Plan,
}

impl Job for Shift {
    type Out = Done;

    ghost can_work = { λ shift. 0 < known_free shift.notes };

    ghost promise = { λ shift out. Accounts ⟦<Tag as Link>⟧.identity shift.parcels shift.notes out };

    fn work<Ho: Host>(self, waiter: Waiter<Ho>) -> Done {
        what_is_handed_over_is_accounted_for::<Tag, Plan>();
        let Shift {
            alloc,
            parcels,
            notes,
            plan,
        } = self;
        WorkerJob::new(alloc, parcels, notes, plan, LISTENERS).work(waiter)
    }
}
