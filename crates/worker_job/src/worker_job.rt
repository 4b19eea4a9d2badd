ghost use Rattle.std.specs.Prelude.{◌≡◌};
ghost use Rattle.worker_job.specs.Jobs.{factory_of, listeners_of, notes_of, parcels_of};
ghost use Rattle.worker_job.specs.Promise.{CanWork, HandsOver};

use crate::departure::Departure;
use crate::giving_up::give_up;
use crate::working::run;
use rtrb::{Consumer, Producer};
use server_jobs::{Handed, Job, Note, Parcel, Waiter};
use server_run::{Host, ServerServiceFactory};
use server_worker::Worker;
use service_core::{Link, ServiceFactory};
use std::alloc::Global;

/// The job of a worker, with the parts that the worker is made of (what `actix-server`'s `ServerWorker::start` gives to its thread).
#[derive(Drop)]
pub struct WorkerJob<L, F> {
    pub(crate) alloc: Global,
    pub(crate) parcels: Consumer<Parcel<L>>,
    pub(crate) notes: Producer<Note<L>>,
    pub(crate) factory: F,
    pub(crate) listeners: usize,
}

impl<L, F> WorkerJob<L, F> {
    /// The job of a worker with these ends of its two rings, which makes the services of so many listeners by this factory.
    pub fn new(
        alloc: Global,
        parcels: Consumer<Parcel<L>>,
        notes: Producer<Note<L>>,
        factory: F,
        listeners: usize,
    ) -> WorkerJob<L, F>
        ensures parcels { parcels_of result ≡ parcels }
        ensures notes { notes_of result ≡ notes }
        ensures factory { factory_of result ≡ factory }
        ensures listeners { listeners_of result ≡ listeners }
    {
        WorkerJob {
            alloc,
            parcels,
            notes,
            factory,
            listeners,
        }
    }
}

impl<
    L: Link + Send,
    F: ServerServiceFactory<L, Factory: ServiceFactory<L, Error: Send, InitError: Drop + Send>>
        + Send,
> Job for WorkerJob<L, F> {
    type Out = Handed<
        L,
        F,
        Departure<
            <F::Factory as ServiceFactory<L>>::Error,
            <F::Factory as ServiceFactory<L>>::InitError,
        >,
    >;

    ghost can_work = { λ job. CanWork job };

    ghost promise = { λ job out. HandsOver L.identity F.may_serve F.may_leave F.may_ready F.may_init F.may_make job out };

    // Makes the worker in its thread, turns it until it ends, and hands over what it has.
    fn work<Ho: Host>(self, waiter: Waiter<Ho>) -> Self::Out {
        let WorkerJob {
            alloc,
            parcels,
            notes,
            factory,
            listeners,
        } = self;
        match Worker::new(alloc, parcels, notes, factory, listeners) {
            Ok(worker) => run(alloc, waiter, worker),
            Err(parts) => give_up(alloc, parts),
        }
    }
}
