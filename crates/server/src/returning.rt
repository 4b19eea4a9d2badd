//! How the workers are joined, and what comes back only then is handed on.
ghost use Rattle.std.specs.Prelude.{◌≡◌, ◌≤◌, ◌+◌, All, length, sum_by};
ghost use Rattle.server_jobs.specs.Joins.{IsLine};
ghost use Rattle.rtrb.specs.Ring.{received, sent};
ghost use Rattle.server_jobs.specs.Cards.{of_note, of_parcel};
ghost use Rattle.server.specs.Joining.{IsJoinable};
ghost use Rattle.server.specs.Returning.{Returned, ReturnsBy, many_back, many_put};
ghost use Rattle.server.specs.Rows.{rows_of};

use rtrb::{Consumer, Producer};
use server_jobs::{Handed, Handover, Job, Line, Note, Parcel, Running, ThreadFactory};
use server_run::Done;
use service_core::{Link, ServiceFactory};
use std::thread::Threads;
use worker_job::{Departure, WorkerJob};

// Joins a worker's thread, and hands on what comes back only then.
fn return_one<Th, L, F, Do>(rt: &Th, worker: usize, line: Line<L, WorkerJob<L, F>>, done: &mut Do)
where
    Th: Threads,
    L: Link + Send,
    F: ThreadFactory<L>,
    Do: Done<L>,
    requires line { IsLine L.identity ⟦<WorkerJob<L, F> as Job>⟧.promise ⟦<Handed<L, F, Departure<<F::Factory as ServiceFactory<L>>::Error, <F::Factory as ServiceFactory<L>>::InitError>> as Handover<L>>⟧.handed line }
    requires room { sum_by (of_parcel L.identity (λ c. 1)) (sent line.parcels) ≤ sum_by (of_note L.identity (λ c. 1)) (received line.notes) + Do.spare done.old }
    ensures { Returned L.identity ⟦<WorkerJob<L, F> as Job>⟧.promise ⟦<Handed<L, F, Departure<<F::Factory as ServiceFactory<L>>::Error, <F::Factory as ServiceFactory<L>>::InitError>> as Handover<L>>⟧.handed Do.taken Do.count Do.served Do.spare worker line done.old done.new }
{
    let joined = line.join(rt);
    joined.hand_on(worker, done);
}

// Joins the threads of all workers, the last one first, and hands on what comes back only then.
pub(crate) fn return_all<Th, L, F, Do>(
    rt: &Th,
    parcels: Vec<Producer<Parcel<L>>>,
    notes: Vec<Consumer<Note<L>>>,
    running: Vec<Option<Running<WorkerJob<L, F>>>>,
    done: &mut Do,
)
where
    Th: Threads,
    L: Link + Send,
    F: ThreadFactory<L>,
    Do: Done<L>,
    requires as_many { (length parcels.items ≡ length running.items) × (length notes.items ≡ length running.items) }
    requires lines { All (IsJoinable L.identity ⟦<WorkerJob<L, F> as Job>⟧.promise ⟦<Handed<L, F, Departure<<F::Factory as ServiceFactory<L>>::Error, <F::Factory as ServiceFactory<L>>::InitError>> as Handover<L>>⟧.handed) (rows_of parcels.items notes.items running.items) }
    requires fewer { All (λ row. many_back L.identity row ≤ many_put L.identity row) (rows_of parcels.items notes.items running.items) }
    requires room { sum_by (many_put L.identity) (rows_of parcels.items notes.items running.items) ≤ sum_by (many_back L.identity) (rows_of parcels.items notes.items running.items) + Do.spare done.old }
    ensures { ReturnsBy L.identity ⟦<WorkerJob<L, F> as Job>⟧.promise ⟦<Handed<L, F, Departure<<F::Factory as ServiceFactory<L>>::Error, <F::Factory as ServiceFactory<L>>::InitError>> as Handover<L>>⟧.handed Do.taken Do.count Do.served Do.spare (rows_of parcels.items notes.items running.items) done.old done.new }
{
    let mut parcels = parcels;
    let mut notes = notes;
    let mut running = running;
    while let Some(last) = running.pop() {
        let Some(producer) = parcels.pop() else {
            unreachable!()
        };
        let Some(consumer) = notes.pop() else {
            unreachable!()
        };
        let Some(job) = last else {
            continue;
        };
        let line = Line {
            parcels: producer,
            notes: consumer,
            running: job,
        };
        return_one(rt, running.len(), line, done);
    }
    running.destroy_empty();
}
