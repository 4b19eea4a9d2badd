//! A worker as it is turned.
ghost use Rattle.std.specs.Prelude.{◌≡◌, IfOk, IfNone};
ghost use Rattle.server_worker.specs.Turn.{IsGoing, Works};
ghost use Rattle.server_worker.specs.Workers.{factory_of, hand_of, services_of};

use crate::plan::{Fault, Plan, Refusal};
use futures::task::{Context, Doorbell, Poll, Queue};
use rtrb::{Consumer, Producer};
use server_jobs::{Note, Parcel};
use server_run::ServerServiceFactory;
use server_worker::{Turned, Worker, WorkerParts};
use service_core::{Link, ServiceFactory};
use std::alloc::{AllocError, AllocGlobal, Global};
use std::random::RandomSource;
use std::sync::Wait;

/// How many listeners a worker of the tests has.
pub(crate) const LISTENERS: usize = 3;

// The seat of its job.
const SEAT: usize = 0;

/// How a worker ended.
#[derive(Clone, Copy, PartialEq, Eq)]
pub(crate) enum Ending {
    /// It was stopped. True says that it held no connection that was served.
    Left(bool),
    /// The factory of that token refused its service by an error that names a token.
    Unstarted {
        /// The token.
        token: usize,
        /// The token that the error names.
        named: usize,
    },
    /// A service that erred could not be made anew.
    Faulted {
        /// The token.
        token: usize,
        /// The token that the error of its readiness names.
        erred: usize,
        /// The token that the error of its factory names.
        named: usize,
    },
    /// Its queue was shut down.
    Shut,
}

/// What is turned.
pub(crate) trait Station {
    // Holds of one that may be turned.
    ghost goes_on: { Self → Type 0 };

    /// One turn, which polls all that is live, or what has news of one of these slots. None, where it goes on.
    fn turn(&mut self, news: Option<&[u32]>, cx: &mut Context<'_>) -> Option<Ending>
        requires { goes_on self.old }
        ensures { IfNone result (goes_on self.new) };

    /// How many connections it held at the end of the last turn.
    fn total(&self) -> u64;

    /// Whether that turn left something in the ring to it.
    fn was_short(&self) -> bool;
}

// One turn of the worker.
fn turned<L: Link, F: ServerServiceFactory<L>>(
    worker: &mut Worker<L, F>,
    news: Option<&[u32]>,
    cx: &mut Context<'_>,
) -> Turned<<F::Factory as ServiceFactory<L>>::Error, <F::Factory as ServiceFactory<L>>::InitError>
    requires { Works F.Factory.ServiceFactory F.Factory.Future.Future F.Factory.Service.Service F.Factory.Service.Future.Future F.Factory.Service.Future.may_stand
        (F.may_serve (factory_of worker.old)) (F.may_leave (factory_of worker.old)) (F.may_ready (factory_of worker.old)) (F.may_init (factory_of worker.old)) (F.may_make (factory_of worker.old)) (services_of worker.old) (hand_of worker.old) }
    ensures { IsGoing result → Works F.Factory.ServiceFactory F.Factory.Future.Future F.Factory.Service.Service F.Factory.Service.Future.Future F.Factory.Service.Future.may_stand
        (F.may_serve (factory_of worker.new)) (F.may_leave (factory_of worker.new)) (F.may_ready (factory_of worker.new)) (F.may_init (factory_of worker.new)) (F.may_make (factory_of worker.new)) (services_of worker.new) (hand_of worker.new) }
{
    match news {
        None => worker.turn(cx),
        Some(news) => worker.turn_due(false, news, SEAT, cx),
    }
}

/// A worker with what its last turn came to.
#[derive(Drop)]
pub(crate) struct Shift<L: Link, F: ServerServiceFactory<L>> {
    worker: Worker<L, F>,
    short: bool,
}

impl<
    L: Link,
    F: ServerServiceFactory<L, Factory: ServiceFactory<L, Error = Fault, InitError = Refusal>>,
> Station for Shift<L, F> {
    ghost goes_on = { λ s. Works F.Factory.ServiceFactory F.Factory.Future.Future F.Factory.Service.Service F.Factory.Service.Future.Future F.Factory.Service.Future.may_stand
        (F.may_serve (factory_of s.worker)) (F.may_leave (factory_of s.worker)) (F.may_ready (factory_of s.worker)) (F.may_init (factory_of s.worker)) (F.may_make (factory_of s.worker)) (services_of s.worker) (hand_of s.worker) };

    fn turn(&mut self, news: Option<&[u32]>, cx: &mut Context<'_>) -> Option<Ending> {
        match turned(&mut self.worker, news, cx) {
            Turned::Going => {
                self.short = false;
                None
            }
            Turned::Short => {
                self.short = true;
                None
            }
            Turned::Left(none_held) => Some(Ending::Left(none_held)),
            Turned::Unstarted { token, error } => Some(Ending::Unstarted {
                token,
                named: error.token,
            }),
            Turned::Faulted {
                token,
                readiness,
                error,
            } => Some(Ending::Faulted {
                token,
                erred: readiness.token,
                named: error.token,
            }),
        }
    }

    fn total(&self) -> u64 {
        self.worker.total()
    }

    fn was_short(&self) -> bool {
        self.short
    }
}

// A worker of these parts. Where memory was refused once, it is made of the parts that came back.
fn made<L, F>(
    alloc: Global,
    parcels: Consumer<Parcel<L>>,
    notes: Producer<Note<L>>,
    factory: F,
) -> Result<Worker<L, F>, WorkerParts<L, F>>
where
    L: Link,
    F: ServerServiceFactory<L>,
    ensures factory { IfOk result (λ w. factory_of w ≡ factory) }
    ensures works { IfOk result (λ w. Works F.Factory.ServiceFactory F.Factory.Future.Future F.Factory.Service.Service F.Factory.Service.Future.Future F.Factory.Service.Future.may_stand
        (F.may_serve (factory_of w)) (F.may_leave (factory_of w)) (F.may_ready (factory_of w)) (F.may_init (factory_of w)) (F.may_make (factory_of w)) (services_of w) (hand_of w)) }
{
    match Worker::new(alloc, parcels, notes, factory, LISTENERS) {
        Ok(worker) => Ok(worker),
        Err(parts) => {
            let WorkerParts {
                parcels,
                notes,
                factory,
            } = parts;
            Worker::new(alloc, parcels, notes, factory, LISTENERS)
        }
    }
}

/// A worker of the plan's services, over these ends of its rings.
pub(crate) fn opened<L: Link>(
    alloc: Global,
    parcels: Consumer<Parcel<L>>,
    notes: Producer<Note<L>>,
    plan: Plan,
) -> Result<Shift<L, Plan>, AllocError>
    ensures { IfOk result ⟦<Shift<L, Plan> as Station>⟧.goes_on }
{
    match made(alloc, parcels, notes, plan) {
        Ok(worker) => Ok(Shift {
            worker,
            short: false,
        }),
        Err(_) => Err(AllocError),
    }
}

/// A queue whose one task is to be polled.
pub(crate) fn queue_of_one<R: RandomSource + AllocGlobal>(rt: &R) -> Result<Queue, AllocError> {
    let Ok(queue) = Queue::new(rt, Doorbell::parking()) else {
        return Err(AllocError);
    };
    queue.add()?.schedule();
    Ok(queue)
}

/// One turn, as a poll of the queue's task, which is to be polled again.
pub(crate) fn turn_once<W: Wait, S: Station>(
    rt: &W,
    queue: &Queue,
    news: Option<&[u32]>,
    station: &mut S,
) -> Option<Ending>
    requires { S.goes_on station.old }
    ensures { IfNone result (S.goes_on station.new) }
{
    let Some(mut cx) = queue.next(rt) else {
        return Some(Ending::Shut);
    };
    let ending = station.turn(news, &mut cx);
    let _: Poll<()> = cx.yield_now();
    cx.park();
    ending
}
