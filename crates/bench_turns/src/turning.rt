//! Turns of a worker over connections in memory.
ghost use Rattle.std.specs.Prelude.{ℕ, Err, OnOk};
ghost use Rattle.futures.specs.declared.task.Poll.TheVariants.{Ready as PollReady};
ghost use Rattle.bench_turns.specs.Going.{Goes};

use crate::ends::Ends;
use crate::failure::Failure;
use crate::load::Load;
use crate::small_link::SmallLink;
use futures::task::{Context, Doorbell, Queue};
use rtrb::RingBuffer;
use server_run::ServerServiceFactory;
use server_worker::{Turned, Worker};
use service_core::ServiceFactory;
use std::alloc::{AllocGlobal, Global};
use std::random::RandomSource;
use std::sync::Wait;

// In so many turns a connection of one request comes back.
const MOST_TURNS: u32 = 8;

// A turn, after which the worker goes on.
fn go_on<F>(worker: &mut Worker<SmallLink, F>, cx: &mut Context<'_>) -> Result<(), Failure>
where
    F: ServerServiceFactory<SmallLink, Factory: ServiceFactory<SmallLink, InitError: Drop>>,
    requires { Goes F.Factory.ServiceFactory F.Factory.Future.Future F.Factory.Service.Service F.Factory.Service.Future.Future F.Factory.Service.Future.may_stand
        F.may_serve F.may_leave F.may_ready F.may_init F.may_make worker.old }
    ensures { OnOk result (Goes F.Factory.ServiceFactory F.Factory.Future.Future F.Factory.Service.Service F.Factory.Service.Future.Future F.Factory.Service.Future.may_stand
        F.may_serve F.may_leave F.may_ready F.may_init F.may_make worker.new) }
{
    match worker.turn(cx) {
        Turned::Going => Ok(()),
        Turned::Short => Err(Failure::Memory),
        _ => Err(Failure::Wrong),
    }
}

// So many turns.
fn turn_on<F>(
    worker: &mut Worker<SmallLink, F>,
    cx: &mut Context<'_>,
    turns: u64,
) -> Result<(), Failure>
where
    F: ServerServiceFactory<SmallLink, Factory: ServiceFactory<SmallLink, InitError: Drop>>,
    requires { Goes F.Factory.ServiceFactory F.Factory.Future.Future F.Factory.Service.Service F.Factory.Service.Future.Future F.Factory.Service.Future.may_stand
        F.may_serve F.may_leave F.may_ready F.may_init F.may_make worker.old }
    ensures { OnOk result (Goes F.Factory.ServiceFactory F.Factory.Future.Future F.Factory.Service.Service F.Factory.Service.Future.Future F.Factory.Service.Future.may_stand
        F.may_serve F.may_leave F.may_ready F.may_init F.may_make worker.new) }
{
    for _ in 0..turns {
        go_on(worker, cx)?;
    }
    Ok(())
}

// Turns over connections that wait. How many bytes were written on connections that came back: none.
fn wait<F>(
    worker: &mut Worker<SmallLink, F>,
    ends: &mut Ends,
    cx: &mut Context<'_>,
    connections: u32,
    turns: u64,
) -> Result<u64, Failure>
where
    F: ServerServiceFactory<SmallLink, Factory: ServiceFactory<SmallLink, InitError: Drop>>,
    requires { Goes F.Factory.ServiceFactory F.Factory.Future.Future F.Factory.Service.Service F.Factory.Service.Future.Future F.Factory.Service.Future.may_stand
        F.may_serve F.may_leave F.may_ready F.may_init F.may_make worker.old }
{
    for _ in 0..connections {
        ends.send(SmallLink::waiting())?;
    }
    turn_on(worker, cx, 1)?;
    turn_on(worker, cx, turns)?;
    ends.take()?;
    let held = connections as u64;
    if worker.total() != held || !ends.lacks(held) {
        return Err(Failure::Wrong);
    }
    Ok(ends.written())
}

// Serves a connection of one request until it comes back.
fn serve_one<F>(
    worker: &mut Worker<SmallLink, F>,
    ends: &mut Ends,
    cx: &mut Context<'_>,
) -> Result<(), Failure>
where
    F: ServerServiceFactory<SmallLink, Factory: ServiceFactory<SmallLink, InitError: Drop>>,
    requires { Goes F.Factory.ServiceFactory F.Factory.Future.Future F.Factory.Service.Service F.Factory.Service.Future.Future F.Factory.Service.Future.may_stand
        F.may_serve F.may_leave F.may_ready F.may_init F.may_make worker.old }
    ensures { OnOk result (Goes F.Factory.ServiceFactory F.Factory.Future.Future F.Factory.Service.Service F.Factory.Service.Future.Future F.Factory.Service.Future.may_stand
        F.may_serve F.may_leave F.may_ready F.may_init F.may_make worker.new) }
{
    ends.send(SmallLink::asking())?;
    for _ in 0..MOST_TURNS {
        go_on(worker, cx)?;
        ends.take()?;
        if ends.lacks(0) {
            return Ok(());
        }
    }
    Err(Failure::Wrong)
}

// Serves connections of one request each. How many bytes were written on them.
fn serve<F>(
    worker: &mut Worker<SmallLink, F>,
    ends: &mut Ends,
    cx: &mut Context<'_>,
    connections: u32,
) -> Result<u64, Failure>
where
    F: ServerServiceFactory<SmallLink, Factory: ServiceFactory<SmallLink, InitError: Drop>>,
    requires { Goes F.Factory.ServiceFactory F.Factory.Future.Future F.Factory.Service.Service F.Factory.Service.Future.Future F.Factory.Service.Future.may_stand
        F.may_serve F.may_leave F.may_ready F.may_init F.may_make worker.old }
{
    for _ in 0..connections {
        serve_one(worker, ends, cx)?;
    }
    Ok(ends.written())
}

// Does what the load says. How many bytes were written on connections that came back.
fn carry<F>(
    worker: &mut Worker<SmallLink, F>,
    ends: &mut Ends,
    cx: &mut Context<'_>,
    load: Load,
) -> Result<u64, Failure>
where
    F: ServerServiceFactory<SmallLink, Factory: ServiceFactory<SmallLink, InitError: Drop>>,
    requires { Goes F.Factory.ServiceFactory F.Factory.Future.Future F.Factory.Service.Service F.Factory.Service.Future.Future F.Factory.Service.Future.may_stand
        F.may_serve F.may_leave F.may_ready F.may_init F.may_make worker.old }
{
    match load {
        Load::Wait { connections, turns } => wait(worker, ends, cx, connections, turns),
        Load::Serve { connections } => serve(worker, ends, cx, connections),
    }
}

// The same, by a worker of the factory.
fn carry_by<F>(alloc: Global, cx: &mut Context<'_>, factory: F, load: Load) -> Result<u64, Failure>
where
    F: ServerServiceFactory<SmallLink, Factory: ServiceFactory<SmallLink, InitError: Drop>>,
    requires never_errs { (token : ℕ) (e : F.Factory.Error) → F.may_ready factory token (PollReady (Err e)) → ⊥ }
{
    let places = load.at_once() as usize + 1;
    let (to_worker, parcels) = RingBuffer::new(alloc, places)?;
    let (notes, from_worker) = RingBuffer::new(alloc, places + 1)?;
    match Worker::new(alloc, parcels, notes, factory, 1) {
        Ok(mut worker) => {
            let mut ends = Ends::new(to_worker, from_worker);
            carry(&mut worker, &mut ends, cx, load)
        }
        Err(_) => Err(Failure::Memory),
    }
}

/// Has a worker of the factory do what the load says, as one task. How many bytes were written on connections that came back.
pub fn carried<R, F>(rt: &R, factory: F, load: Load) -> Result<u64, Failure>
where
    R: Wait + RandomSource + AllocGlobal,
    F: ServerServiceFactory<SmallLink, Factory: ServiceFactory<SmallLink, InitError: Drop>>,
    requires never_errs { (token : ℕ) (e : F.Factory.Error) → F.may_ready factory token (PollReady (Err e)) → ⊥ }
{
    let Ok(queue) = Queue::new(rt, Doorbell::parking()) else {
        return Err(Failure::Memory);
    };
    queue.add()?.schedule();
    let Some(mut cx) = queue.next(rt) else {
        return Err(Failure::Wrong);
    };
    let written = carry_by(rt.alloc(), &mut cx, factory, load);
    cx.cancel();
    written
}
