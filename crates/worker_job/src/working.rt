//! What the thread of a worker does.
ghost use Rattle.std.specs.Prelude.{◌≡◌, ◌<◌};
ghost use Rattle.rtrb.specs.Ring.{known_free};
ghost use Rattle.server_worker.specs.Room.{IsFresh};
ghost use Rattle.server_worker.specs.Workers.{hand_of, held_by, notes_of};
ghost use Rattle.worker_job.specs.Promise.{HandsOver};
ghost use Rattle.worker_job.specs.Working.{CanTurn, Departs, IsMadeOf, SaysBefore, Turns};
ghost use Rattle.worker_job.specs.declared.worker_job.WorkerJob.{WorkerJob};

use crate::departure::Departure;
use crate::giving_up::tell_fault;
use crate::news::News;
use futures::task::{Context, Waker};
use server_jobs::{Handed, OneTask, Waiter};
use server_run::ServerServiceFactory;
use server_worker::{Turned, Worker};
use service_core::{Link, Service, ServiceFactory};
use std::alloc::Global;
use std::sync::Wait;
use std::time::Clock;

// Waits for what comes next behind a turn of a worker that holds so many connections, and gives the context of the next turn. Who started
// the job is woken where the turn `moved` something. A worker whose connections want another poll doesn't sleep: its task is asked
// before the thread would.
fn rest<'a, Ho: Wait + Clock>(
    waiter: &mut Waiter<Ho>,
    task: &'a OneTask,
    cx: Context<'a>,
    kept: &mut Option<Waker>,
    moved: bool,
    held: u64,
) -> Context<'a> {
    if moved {
        waiter.stirred();
        waiter.ring();
    }
    if held == 0 || !waiter.is_tired() {
        waiter.wait();
        return cx;
    }
    if task.was_woken(cx, kept) {
        waiter.pass();
    } else {
        waiter.wait();
    }
    task.begin()
}

// Makes turns until the worker was stopped and holds nothing, which is at once by a stop that is not graceful, or a service of its
// can't be made, for the first time or anew.
fn make_turns<'a, Ho, L, F>(
    host: &Ho,
    task: &'a OneTask,
    waiter: &mut Waiter<Ho>,
    worker: &mut Worker<L, F>,
    news: News,
) -> Departure<
    <F::Factory as ServiceFactory<L>>::Error,
    <F::Factory as ServiceFactory<L>>::InitError,
>
where
    Ho: Wait + Clock,
    L: Link,
    F: ServerServiceFactory<L, Factory: ServiceFactory<L, Error: Drop, InitError: Drop>>,
    requires can { CanTurn F.Factory.ServiceFactory F.Factory.Future.Future F.Factory.Service.Service F.Factory.Service.Future.Future F.Factory.Service.Future.may_stand
        F.may_serve F.may_leave F.may_ready F.may_init F.may_make worker.old }
    requires fresh { IsFresh (hand_of worker.old) }
    ensures turns { Turns F.Factory.Service.Future.Future F.Factory.Service.Future.may_stand L.identity F.may_serve F.may_leave F.may_make worker.old worker.new }
    ensures departs { Departs F.may_ready F.may_init worker.new result }
    ensures signals { SaysBefore (hand_of worker.old) (hand_of worker.new) result }
{
    let mut cx = task.begin();
    let mut kept = None;
    let mut news = news;
    for _ in host.forever() {
        let before = worker.total();
        let every = !news.take(waiter);
        match worker.turn_due(every, news.slots(), waiter.number(), &mut cx) {
            Turned::Going | Turned::Short => {
                let held = worker.total();
                let moved = held != before || worker.has_posted();
                cx = rest(waiter, task, cx, &mut kept, moved, held);
            }
            Turned::Left(_) => {
                cx.cancel();
                return Departure::Left;
            }
            Turned::Unstarted { token, error } => {
                cx.cancel();
                return Departure::Unstarted { token, error };
            }
            Turned::Faulted {
                token,
                readiness,
                error,
            } => {
                cx.cancel();
                return Departure::Faulted {
                    token,
                    readiness,
                    error,
                };
            }
        }
    }
    unreachable!()
}

// Makes all turns, as one task.
fn turn_on<Ho, L, F>(
    alloc: Global,
    waiter: &mut Waiter<Ho>,
    worker: &mut Worker<L, F>,
) -> Departure<
    <F::Factory as ServiceFactory<L>>::Error,
    <F::Factory as ServiceFactory<L>>::InitError,
>
where
    Ho: Clone + Drop + Wait + Clock,
    L: Link,
    F: ServerServiceFactory<L, Factory: ServiceFactory<L, Error: Drop, InitError: Drop>>,
    requires can { CanTurn F.Factory.ServiceFactory F.Factory.Future.Future F.Factory.Service.Service F.Factory.Service.Future.Future F.Factory.Service.Future.may_stand
        F.may_serve F.may_leave F.may_ready F.may_init F.may_make worker.old }
    requires fresh { IsFresh (hand_of worker.old) }
    requires none_held { held_by worker.old ≡ 0 }
    ensures turns { Turns F.Factory.Service.Future.Future F.Factory.Service.Future.may_stand L.identity F.may_serve F.may_leave F.may_make worker.old worker.new }
    ensures departs { Departs F.may_ready F.may_init worker.new result }
    ensures signals { SaysBefore (hand_of worker.old) (hand_of worker.new) result }
{
    let Ok(host) = waiter.host().clone() else {
        return Departure::Memory;
    };
    let Some(task) = OneTask::new(alloc, waiter.number()) else {
        return Departure::Memory;
    };
    make_turns(&host, &task, waiter, worker, News::new(alloc))
}

// Makes all turns, and hands over what the worker then has.
pub(crate) fn run<Ho, L, F>(
    alloc: Global,
    waiter: Waiter<Ho>,
    worker: Worker<L, F>,
) -> Handed<
    L,
    F,
    Departure<
        <F::Factory as ServiceFactory<L>>::Error,
        <F::Factory as ServiceFactory<L>>::InitError,
    >,
>
where
    Ho: Clone + Drop + Wait + Clock,
    L: Link,
    F: ServerServiceFactory<L, Factory: ServiceFactory<L, Error: Drop, InitError: Drop>>,
    requires can { CanTurn F.Factory.ServiceFactory F.Factory.Future.Future F.Factory.Service.Service F.Factory.Service.Future.Future F.Factory.Service.Future.may_stand
        F.may_serve F.may_leave F.may_ready F.may_init F.may_make worker }
    requires fresh { IsFresh (hand_of worker) }
    requires none_held { held_by worker ≡ 0 }
    requires place { 0 < known_free (notes_of worker) }
    ensures { (job : WorkerJob L F) → IsMadeOf worker job → HandsOver L.identity F.may_serve F.may_leave F.may_ready F.may_init F.may_make job result }
{
    let mut waiter = waiter;
    let mut worker = worker;
    let departure = turn_on(alloc, &mut waiter, &mut worker);
    let mut handed = worker.into_handed(departure);
    tell_fault(&mut handed);
    waiter.leave();
    handed
}
