//! How the workers are told to leave, and joined.
ghost use Rattle.std.specs.Prelude.{◌≡◌, ◌∷◌, [], Some, All, IfSome, length, map};
ghost use Rattle.server_acceptor.specs.Rings.{ring_in};
ghost use Rattle.server_jobs.specs.Joins.{IsLine};
ghost use Rattle.server.specs.Joining.{IsJoinable, IsUnstarted};
ghost use Rattle.server.specs.Rows.{rows_of};

use crate::rests::Rests;
use crate::unstarted::Unstarted;
use rtrb::{Consumer, Producer};
use server_jobs::{Handed, Handover, Job, Joined, Line, Note, Parcel, Running, ThreadFactory};
use service_core::{Link, ServiceFactory};
use std::thread::Threads;
use worker_job::{Departure, WorkerJob};

// Tells all workers that they are to leave. A ring that has no place for it has one already.
pub(crate) fn stop_all<L: Drop>(parcels: &mut Vec<Producer<Parcel<L>>>)
    ensures { map ring_in parcels.new.items ≡ map ring_in parcels.old.items }
{
    for w in 0..parcels.len() {
        let _ = parcels[w].push(Parcel::Stop { graceful: true });
    }
}

// Wakes the worker with that number, if it runs.
pub(crate) fn wake_one<Ho, J, Sp>(running: &Vec<Option<Running<J>>>, w: usize, spawner: &mut Sp)
where
    J: Job,
    Sp: Rests<Ho>,
    ensures { Sp.counts spawner.new ≡ Sp.counts spawner.old }
{
    if let Some(Some(job)) = running.get(w) {
        spawner.ring_for(job.number());
    }
}

// Wakes all workers.
pub(crate) fn wake_all<Ho, J, Sp>(running: &Vec<Option<Running<J>>>, spawner: &mut Sp)
where
    J: Job,
    Sp: Rests<Ho>,
    ensures { Sp.counts spawner.new ≡ Sp.counts spawner.old }
{
    for w in 0..running.len() {
        wake_one::<Ho, J, Sp>(running, w, spawner);
    }
}

// Joins a worker's thread, and tells which service could not be made, for the first time or anew, where one could not.
fn join_one<Th, L, F>(
    rt: &Th,
    line: Line<L, WorkerJob<L, F>>,
) -> Option<(usize, <F::Factory as ServiceFactory<L>>::InitError)>
where
    Th: Threads,
    L: Link + Send,
    F: ThreadFactory<L>,
    requires { IsLine L.identity ⟦<WorkerJob<L, F> as Job>⟧.promise ⟦<Handed<L, F, Departure<<F::Factory as ServiceFactory<L>>::Error, <F::Factory as ServiceFactory<L>>::InitError>> as Handover<L>>⟧.handed line }
    ensures unstarted { IfSome result (λ u. IsUnstarted ⟦<WorkerJob<L, F> as Job>⟧.promise ⟦<Handed<L, F, Departure<<F::Factory as ServiceFactory<L>>::Error, <F::Factory as ServiceFactory<L>>::InitError>> as Handover<L>>⟧.handed (record { parcels = line.parcels; notes = line.notes; running = Some line.running } ∷ []) 0 u.0 u.1) }
{
    let Joined { handed, .. } = line.join(rt);
    let Handed { departure, .. } = handed;
    match departure {
        Departure::Unstarted { token, error } => Some((token, error)),
        Departure::Faulted {
            token,
            readiness,
            error,
        } => {
            drop(readiness);
            Some((token, error))
        }
        Departure::Left | Departure::Memory => None,
    }
}

// Joins the threads of all workers, the last one first, and tells of the lowest worker of which a service could not be made.
pub(crate) fn join_all<Th, L, F>(
    rt: &Th,
    parcels: Vec<Producer<Parcel<L>>>,
    notes: Vec<Consumer<Note<L>>>,
    running: Vec<Option<Running<WorkerJob<L, F>>>>,
) -> Option<Unstarted<<F::Factory as ServiceFactory<L>>::InitError>>
where
    Th: Threads,
    L: Link + Send,
    F: ThreadFactory<L>,
    requires as_many { (length parcels.items ≡ length running.items) × (length notes.items ≡ length running.items) }
    requires lines { All (IsJoinable L.identity ⟦<WorkerJob<L, F> as Job>⟧.promise ⟦<Handed<L, F, Departure<<F::Factory as ServiceFactory<L>>::Error, <F::Factory as ServiceFactory<L>>::InitError>> as Handover<L>>⟧.handed) (rows_of parcels.items notes.items running.items) }
    ensures unstarted { IfSome result (λ u. IsUnstarted ⟦<WorkerJob<L, F> as Job>⟧.promise ⟦<Handed<L, F, Departure<<F::Factory as ServiceFactory<L>>::Error, <F::Factory as ServiceFactory<L>>::InitError>> as Handover<L>>⟧.handed (rows_of parcels.items notes.items running.items) u.worker u.token u.error) }
{
    let mut parcels = parcels;
    let mut notes = notes;
    let mut running = running;
    let mut unstarted = None;
    while let Some(last) = running.pop() {
        let Some(producer) = parcels.pop() else {
            unreachable!()
        };
        let Some(consumer) = notes.pop() else {
            unreachable!()
        };
        let Some(job) = last else {
            continue;
        };
        let line = Line {
            parcels: producer,
            notes: consumer,
            running: job,
        };
        if let Some((token, error)) = join_one(rt, line) {
            unstarted = Some(Unstarted {
                worker: running.len(),
                token,
                error,
            });
        }
    }
    running.destroy_empty();
    unstarted
}
