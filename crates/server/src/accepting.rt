//! How the server accepts, turn after turn.
ghost use Rattle.std.specs.Prelude.{◌≡◌, ◌⊎◌, ◌≤◌, ◌<◌, [], length, vec_len, IfSome, None, Some, true, false};
ghost use Rattle.server_acceptor.specs.Accepting.{IsNoted};
ghost use Rattle.server_acceptor.specs.Acceptors.{all_ready, out_of, serial_of, shutdown_timeout_of};
ghost use Rattle.server_acceptor.specs.Carrying.{Carries};
ghost use Rattle.server_run.specs.Report.{is_stop};
ghost use Rattle.server_run.specs.Serving.{MayFault};
ghost use Rattle.server_run.specs.declared.report.End.TheVariants.{NoWorkers};
ghost use Rattle.server.specs.Accepting.{Accepts, CanAccept, Ends, Hears, ends_alone};
ghost use Rattle.server.specs.Replacing.{Crew, Restarts};
ghost use Rattle.server.specs.Retiring.{AreFirst, Retirements};
ghost use Rattle.server.specs.Stopping.{IsUntold};

use crate::joining::{wake_all, wake_one};
use crate::replacing::replace_one;
use crate::rests::Rests;
use futures::task::Context;
use server_acceptor::{AcceptTurn, Acceptor};
use server_commands::Commands;
use server_core::Event;
use server_jobs::{Clock, Job, OneTask, Running, Spawner, ThreadFactory};
use server_run::{Done, End, Host, Listener};
use service_core::{Link, ServiceFactory};
use std::alloc::Global;
use worker_job::WorkerJob;

// Wakes the workers that got a connection in the last turn.
fn wake_sent<Ho, L, J, Sp>(
    acceptor: &Acceptor<L>,
    running: &Vec<Option<Running<J>>>,
    spawner: &mut Sp,
)
where
    L: Link,
    J: Job,
    Sp: Rests<Ho>,
    ensures { Sp.counts spawner.new ≡ Sp.counts spawner.old }
{
    for event in acceptor.events().iter() {
        if let Event::Sent { worker, .. } = *event {
            wake_one::<Ho, J, Sp>(running, worker, spawner);
        }
    }
}

// Wakes the workers for which something is: all of them after a stop.
fn wake<Ho, L, J, Sp>(acceptor: &Acceptor<L>, running: &Vec<Option<Running<J>>>, spawner: &mut Sp)
where
    L: Link,
    J: Job,
    Sp: Rests<Ho>,
    ensures { Sp.counts spawner.new ≡ Sp.counts spawner.old }
{
    if acceptor.is_stopping() {
        wake_all::<Ho, J, Sp>(running, spawner);
    } else {
        wake_sent::<Ho, L, J, Sp>(acceptor, running, spawner);
    }
}

// Whether the last turn did something. That a ring was full or has room again is nothing: a worker that takes from its ring wakes this thread.
fn has_worked<L: Link>(acceptor: &Acceptor<L>) -> bool {
    for event in acceptor.events().iter() {
        match *event {
            Event::RingFull(_) | Event::Notice(_) => {}
            _ => return true,
        }
    }
    false
}

// How the run ends, where the acceptor finished so. None says that none was: not all services stood, or there was no memory to accept the
// first connection.
fn end_of<L: Link>(acceptor: &Acceptor<L>, end: End) -> Option<End>
    ensures some { IfSome result (λ found. (found ≡ end) × (is_stop end ≡ false → all_ready acceptor.now ≡ true)) }
    ensures none { result ≡ None → (all_ready acceptor.now ≡ false) ⊎ (serial_of acceptor.now ≡ 0) }
{
    if let End::Stopped { .. } = end {
        return Some(end);
    }
    if !acceptor.all_ready() {
        return None;
    }
    if end == End::Memory && acceptor.accepted() == 0 {
        return None;
    }
    Some(end)
}

// Makes turns until nothing is left to do, and joins each worker that ends by a fault meanwhile. None says that a worker ended before
// all were ready, or that there was no memory to accept the first connection.
fn accept_all<Ho, Li, F, Co, Cl, Sp, Do>(
    rt: &Ho,
    alloc: Global,
    factory: &F,
    cx: &mut Context<'_>,
    acceptor: &mut Acceptor<Li::Link>,
    running: &mut Vec<Option<Running<WorkerJob<Li::Link, F>>>>,
    listeners: &mut Vec<Li>,
    commands: &mut Co,
    clock: &mut Cl,
    spawner: &mut Sp,
    done: &mut Do,
) -> Option<End>
where
    Ho: Host + 'static,
    Li: Listener<Link: Send + 'static>,
    F: ThreadFactory<Li::Link> + 'static,
    Co: Commands,
    Cl: Clock,
    Sp: Spawner,
    Do: Done<Li::Link>,
    Li::Link: 'static,
    <F::Factory as ServiceFactory<Li::Link>>::Error: 'static,
    <F::Factory as ServiceFactory<Li::Link>>::InitError: 'static,
    requires can { CanAccept Li.given listeners.old.items acceptor.old (Do.spare done.old) }
    requires fresh { IsUntold acceptor.old }
    requires count { (0 < vec_len listeners.old) × (vec_len listeners.old ≤ 64) }
    requires noted { IsNoted acceptor.old }
    requires carries { Carries Li.given Li.left Li.Link.identity false listeners.old.items listeners.old.items acceptor.old [] }
    requires crew { Crew F.may_serve F.may_leave F.may_ready F.may_init F.may_make Li.Link.identity factory.now (vec_len listeners.old) acceptor.old running.old.items }
    requires first { AreFirst running.old.items }
    ensures accepts { Accepts Li.given Li.left Li.rest Li.Link.identity Li.ended Li.faults Do.taken Do.count Do.served listeners.old.items listeners.new.items acceptor.old acceptor.new done.old done.new (ends_alone result) }
    ensures crew { Crew F.may_serve F.may_leave F.may_ready F.may_init F.may_make Li.Link.identity factory.now (vec_len listeners.old) acceptor.new running.new.items }
    ensures as_many { length running.new.items ≡ length running.old.items }
    ensures counts { Restarts (MayFault (F.may_ready factory.now) (F.may_init factory.now) (vec_len listeners.old)) (Sp.starts spawner.old, Sp.refusals spawner.old) (Sp.starts spawner.new, Sp.refusals spawner.new) }
    ensures hears { Hears Co.given Co.stops Co.ended acceptor.new commands.old commands.new (shutdown_timeout_of acceptor.old) (Cl.told clock.old) (Cl.told clock.new) }
    ensures room { out_of acceptor.new ≤ Do.spare done.new }
    ensures finished { IfSome result (λ end. (is_stop end ≡ false → all_ready acceptor.new ≡ true) × Ends (MayFault (F.may_ready factory.now) (F.may_init factory.now) (vec_len listeners.old)) acceptor.new end) }
    ensures alone { result ≡ Some NoWorkers → Retirements (F.may_init factory.now) (vec_len listeners.old) (length running.new.items) 0 (Sp.starts spawner.old, Sp.refusals spawner.old) (Sp.starts spawner.new, Sp.refusals spawner.new) }
    ensures refused { result ≡ None → (all_ready acceptor.new ≡ false) ⊎ (serial_of acceptor.new ≡ 0) }
{
    let count = listeners.len();
    for _ in rt.forever() {
        let turned = acceptor.turn(cx, listeners, commands, clock, done);
        wake::<Ho, Li::Link, WorkerJob<Li::Link, F>, Sp>(acceptor, running, spawner);
        match turned {
            AcceptTurn::Going => spawner.rest_for(rt, has_worked(acceptor)),
            AcceptTurn::WorkerEnded(w) => {
                if !acceptor.all_ready() {
                    return None;
                }
                // Where nothing is left to do it needs no replacement, and is joined with the others.
                if acceptor.is_done() {
                    continue;
                }
                if replace_one::<Ho, Li, F, Sp, Do>(
                    rt, alloc, factory, acceptor, w, running, count, spawner, done,
                ) {
                    return Some(End::NoWorkers);
                }
            }
            AcceptTurn::Finished(end) => return end_of(acceptor, end),
        }
    }
    unreachable!()
}

// Accepts with a context of the task.
pub(crate) fn accept_on<Ho, Li, F, Co, Cl, Sp, Do>(
    rt: &Ho,
    alloc: Global,
    factory: &F,
    task: &OneTask,
    acceptor: &mut Acceptor<Li::Link>,
    running: &mut Vec<Option<Running<WorkerJob<Li::Link, F>>>>,
    listeners: &mut Vec<Li>,
    commands: &mut Co,
    clock: &mut Cl,
    spawner: &mut Sp,
    done: &mut Do,
) -> Option<End>
where
    Ho: Host + 'static,
    Li: Listener<Link: Send + 'static>,
    F: ThreadFactory<Li::Link> + 'static,
    Co: Commands,
    Cl: Clock,
    Sp: Spawner,
    Do: Done<Li::Link>,
    Li::Link: 'static,
    <F::Factory as ServiceFactory<Li::Link>>::Error: 'static,
    <F::Factory as ServiceFactory<Li::Link>>::InitError: 'static,
    requires can { CanAccept Li.given listeners.old.items acceptor.old (Do.spare done.old) }
    requires fresh { IsUntold acceptor.old }
    requires count { (0 < vec_len listeners.old) × (vec_len listeners.old ≤ 64) }
    requires noted { IsNoted acceptor.old }
    requires carries { Carries Li.given Li.left Li.Link.identity false listeners.old.items listeners.old.items acceptor.old [] }
    requires crew { Crew F.may_serve F.may_leave F.may_ready F.may_init F.may_make Li.Link.identity factory.now (vec_len listeners.old) acceptor.old running.old.items }
    requires first { AreFirst running.old.items }
    ensures accepts { Accepts Li.given Li.left Li.rest Li.Link.identity Li.ended Li.faults Do.taken Do.count Do.served listeners.old.items listeners.new.items acceptor.old acceptor.new done.old done.new (ends_alone result) }
    ensures crew { Crew F.may_serve F.may_leave F.may_ready F.may_init F.may_make Li.Link.identity factory.now (vec_len listeners.old) acceptor.new running.new.items }
    ensures as_many { length running.new.items ≡ length running.old.items }
    ensures counts { Restarts (MayFault (F.may_ready factory.now) (F.may_init factory.now) (vec_len listeners.old)) (Sp.starts spawner.old, Sp.refusals spawner.old) (Sp.starts spawner.new, Sp.refusals spawner.new) }
    ensures hears { Hears Co.given Co.stops Co.ended acceptor.new commands.old commands.new (shutdown_timeout_of acceptor.old) (Cl.told clock.old) (Cl.told clock.new) }
    ensures room { out_of acceptor.new ≤ Do.spare done.new }
    ensures finished { IfSome result (λ end. (is_stop end ≡ false → all_ready acceptor.new ≡ true) × Ends (MayFault (F.may_ready factory.now) (F.may_init factory.now) (vec_len listeners.old)) acceptor.new end) }
    ensures alone { result ≡ Some NoWorkers → Retirements (F.may_init factory.now) (vec_len listeners.old) (length running.new.items) 0 (Sp.starts spawner.old, Sp.refusals spawner.old) (Sp.starts spawner.new, Sp.refusals spawner.new) }
    ensures refused { result ≡ None → (all_ready acceptor.new ≡ false) ⊎ (serial_of acceptor.new ≡ 0) }
{
    let mut cx = task.begin();
    let end = accept_all(
        rt, alloc, factory, &mut cx, acceptor, running, listeners, commands, clock, spawner, done,
    );
    cx.cancel();
    end
}
