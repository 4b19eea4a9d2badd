//! How a worker begins.
ghost use Rattle.std.specs.Prelude.{◌≡◌, ◌≤◌, ◌<◌, ℕ, true, false, length, slice_get, IfOk, IfErr};
ghost use Rattle.server_worker.specs.Room.{IsFresh};
ghost use Rattle.server_run.specs.Creating.{Creates};
ghost use Rattle.server_worker.specs.Standing.{AreFactories, AreSlots, IsSlot, fits, fits_at};
ghost use Rattle.worker_core.specs.declared.service_status.ServiceStatus.TheVariants as status;
ghost use Rattle.server_worker.specs.Turn.{Works};
ghost use Rattle.server_worker.specs.Workers.{core_of, factory_of, hand_of, held_by, listeners_of, made_of, notes_of, parcels_of, services_of, total_of};
ghost use Rattle.worker_core.specs.WorkerCore.{new_worker};

use crate::connections::Connections;
use crate::services::Services;
use crate::slot::Slot;
use crate::worker::Worker;
use crate::worker_parts::WorkerParts;
use rtrb::{Consumer, Producer};
use server_jobs::{Note, Parcel};
use server_run::ServerServiceFactory;
use service_core::{Link, Service, ServiceFactory, Watched};
use std::alloc::{AllocError, Global};
use worker_core::WorkerCore;

// The factory of a token, and the making of its first service.
fn begin_one<L, F>(
    alloc: Global,
    factory: &F,
    token: usize,
) -> Result<
    (
        F::Factory,
        Slot<
            <F::Factory as ServiceFactory<L>>::Future,
            <F::Factory as ServiceFactory<L>>::Service,
            <F::Factory as ServiceFactory<L>>::Error,
        >,
    ),
    AllocError,
>
where
    L: Link,
    F: ServerServiceFactory<L>,
    ensures slot { IfOk result (λ begun. IsSlot F.Factory.Future.Future F.Factory.Service.Service F.Factory.Service.Future.may_stand
        (F.may_serve factory.now token) (F.may_leave factory.now token) (F.may_ready factory.now token) (F.may_init factory.now token) (F.may_make factory.now token) begun.1) }
    ensures making { IfOk result (λ begun. fits status.Unavailable begun.1 ≡ true) }
    ensures creates { IfOk result (λ begun. Creates F.Factory.ServiceFactory F.Factory.Service.Future.may_stand
        (F.may_serve factory.now token) (F.may_leave factory.now token) (F.may_ready factory.now token) (F.may_init factory.now token) (F.may_make factory.now token) begun.0) }
{
    let services = factory.create(alloc, token)?;
    let making = services.new_service(());
    Ok((services, Slot::Making(Watched::new(making))))
}

#[tactic(auto, using(crate::proofs::BeginSteps::each_push, crate::proofs::BeginSteps::fits_push))]
// The factories of all tokens, and the making of their first services.
fn begin_all<L, F>(
    alloc: Global,
    factory: &F,
    listeners: usize,
) -> Result<
    (
        Vec<F::Factory>,
        Vec<
            Slot<
                <F::Factory as ServiceFactory<L>>::Future,
                <F::Factory as ServiceFactory<L>>::Service,
                <F::Factory as ServiceFactory<L>>::Error,
            >,
        >,
    ),
    AllocError,
>
where
    L: Link,
    F: ServerServiceFactory<L>,
    ensures slots { IfOk result (λ begun. AreSlots F.Factory.Future.Future F.Factory.Service.Service F.Factory.Service.Future.may_stand
        (F.may_serve factory.now) (F.may_leave factory.now) (F.may_ready factory.now) (F.may_init factory.now) (F.may_make factory.now) begun.1.items) }
    ensures making { IfOk result (λ begun. (token : ℕ) → fits_at status.Unavailable (slice_get begun.1.items token) ≡ true) }
    ensures factories { IfOk result (λ begun. AreFactories F.Factory.ServiceFactory F.Factory.Service.Future.may_stand
        (F.may_serve factory.now) (F.may_leave factory.now) (F.may_ready factory.now) (F.may_init factory.now) (F.may_make factory.now) begun.0.items) }
    ensures as_many { IfOk result (λ begun. (length begun.1.items ≡ listeners) × (length begun.0.items ≡ listeners)) }
{
    let mut factories = Vec::with_capacity(alloc, listeners)?;
    let mut slots = Vec::with_capacity(alloc, listeners)?;
    for token in 0..listeners {
        let (services, slot) = begin_one(alloc, factory, token)?;
        factories.push_reserved(services);
        slots.push_reserved(slot);
    }
    Ok((factories, slots))
}

impl<L: Link, F: ServerServiceFactory<L>> Worker<L, F> {
    /// A worker that begins to make the services of so many listeners. Where there is no memory, and only there, its parts come
    /// back as they were. The ring back wants two places or more: the last one is kept for the note that the worker ends by a fault.
    pub fn new(
        alloc: Global,
        parcels: Consumer<Parcel<L>>,
        notes: Producer<Note<L>>,
        factory: F,
        listeners: usize,
    ) -> Result<Worker<L, F>, WorkerParts<L, F>>
        requires some { 0 < listeners }
        requires fits { listeners ≤ 64 }
        ensures works { IfOk result (λ w. Works F.Factory.ServiceFactory F.Factory.Future.Future F.Factory.Service.Service F.Factory.Service.Future.Future F.Factory.Service.Future.may_stand
            (F.may_serve (factory_of w)) (F.may_leave (factory_of w)) (F.may_ready (factory_of w)) (F.may_init (factory_of w)) (F.may_make (factory_of w)) (services_of w) (hand_of w)) }
        ensures fresh { IfOk result (λ w. IsFresh (hand_of w)) }
        ensures ends { IfOk result (λ w. (parcels_of w ≡ parcels) × (notes_of w ≡ notes)) }
        ensures factory { IfOk result (λ w. factory_of w ≡ factory) }
        ensures listeners { IfOk result (λ w. listeners_of w ≡ listeners) }
        ensures core { IfOk result (λ w. core_of w ≡ new_worker listeners) }
        ensures made { IfOk result (λ w. made_of w ≡ false) }
        ensures total { IfOk result (λ w. total_of w ≡ 0) }
        ensures held { IfOk result (λ w. held_by w ≡ 0) }
        ensures refused { IfErr result (λ parts. (parts.parcels ≡ parcels) × (parts.notes ≡ notes) × (parts.factory ≡ factory)) }
    {
        let Ok((factories, slots)) = begin_all(alloc, &factory, listeners) else {
            return Err(WorkerParts {
                parcels,
                notes,
                factory,
            });
        };
        match Connections::new(alloc, parcels, notes) {
            Ok(hand) => Ok(Worker {
                factory,
                services: Services {
                    factories,
                    slots,
                    core: WorkerCore::new(listeners),
                    made: false,
                },
                hand,
                total: 0,
                posted: false,
            }),
            Err((parcels, notes)) => Err(WorkerParts {
                parcels,
                notes,
                factory,
            }),
        }
    }

    /// How many connections it held at the end of the last turn: queued, of no known listener, and live. After a stop that is not
    /// graceful, how many were live before that turn.
    pub fn total(&self) -> u64
        ensures { result ≡ total_of self.now }
    {
        self.total
    }
}
