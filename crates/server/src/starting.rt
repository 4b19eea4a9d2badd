//! How the workers are started.
ghost use Rattle.std.specs.Prelude.{◌≡◌, ◌≢◌, ◌≤◌, ◌<◌, ℕ, [], All, length, vec_capacity, OnOk, OnErr, IfOk, Err, None, Some};
ghost use Rattle.service_core.specs.Counts.{Rose, risen};
ghost use Rattle.server.specs.Rows.{rows_of};
ghost use Rattle.server.specs.Starting.{HasStarted, IsStarted, MayStart, RoseBy};
ghost use Rattle.server.specs.declared.start_fault.StartFault.TheVariants.{Spawn};

use crate::start_fault::StartFault;
use rtrb::{Consumer, Producer, RingBuffer};
use server_jobs::{Line, Note, Parcel, Running, Spawner, ThreadFactory};
use server_run::Host;
use service_core::{Link, ServiceFactory};
use std::alloc::Global;
use worker_job::WorkerJob;

// Starts one worker, over a ring of so many places to it, and one back that has a place more.
fn start_worker<Ho, L, F, Sp>(
    spawner: &mut Sp,
    rt: &Ho,
    alloc: Global,
    factory: &F,
    listeners: usize,
    ring: usize,
) -> Result<Line<L, WorkerJob<L, F>>, StartFault>
where
    Ho: Host + 'static,
    L: Link + Send + 'static,
    F: ThreadFactory<L> + 'static,
    <F::Factory as ServiceFactory<L>>::Error: 'static,
    <F::Factory as ServiceFactory<L>>::InitError: 'static,
    Sp: Spawner,
    requires may_start { MayStart F.may_serve F.may_leave F.may_ready F.may_init F.may_make F.is_clone factory.now listeners }
    requires places { ring ≤ 4096 }
    ensures line { (count : ℕ) → IfOk result (IsStarted F.may_serve F.may_leave F.may_ready F.may_init F.may_make L.identity count factory.now listeners) }
    ensures ok { OnOk result (Sp.starts spawner.new ≡ risen (Sp.starts spawner.old)) }
    ensures err { OnErr result (Sp.starts spawner.new ≡ Sp.starts spawner.old) }
    ensures spawn { result ≡ Err Spawn → Rose (Sp.refusals spawner.old) (Sp.refusals spawner.new) }
    ensures unrefused { result ≢ Err Spawn → Sp.refusals spawner.new ≡ Sp.refusals spawner.old }
{
    let Ok((parcels, taken)) = RingBuffer::new(alloc, ring) else {
        return Err(StartFault::Memory);
    };
    // One place more, for the note of a fault.
    let Ok((noted, notes)) = RingBuffer::new(alloc, ring + 1) else {
        return Err(StartFault::Memory);
    };
    let Ok(copy) = factory.clone() else {
        return Err(StartFault::Memory);
    };
    let job = WorkerJob::new(alloc, taken, noted, copy, listeners);
    match spawner.start(rt, job) {
        Ok(running) => Ok(Line {
            parcels,
            notes,
            running,
        }),
        Err(_) => Err(StartFault::Spawn),
    }
}

// Starts so many workers, up to the first one that is refused.
pub(crate) fn start_workers<Ho, L, F, Sp>(
    spawner: &mut Sp,
    rt: &Ho,
    alloc: Global,
    factory: &F,
    listeners: usize,
    ring: usize,
    workers: usize,
    parcels: &mut Vec<Producer<Parcel<L>>>,
    notes: &mut Vec<Consumer<Note<L>>>,
    running: &mut Vec<Option<Running<WorkerJob<L, F>>>>,
) -> Option<StartFault>
where
    Ho: Host + 'static,
    L: Link + Send + 'static,
    F: ThreadFactory<L> + 'static,
    <F::Factory as ServiceFactory<L>>::Error: 'static,
    <F::Factory as ServiceFactory<L>>::InitError: 'static,
    Sp: Spawner,
    requires may_start { MayStart F.may_serve F.may_leave F.may_ready F.may_init F.may_make F.is_clone factory.now listeners }
    requires places { ring ≤ 4096 }
    requires none { (parcels.old.items ≡ []) × (notes.old.items ≡ []) × (running.old.items ≡ []) }
    requires room { (workers ≤ vec_capacity parcels.old) × (workers ≤ vec_capacity notes.old) × (workers ≤ vec_capacity running.old) }
    ensures started { All (HasStarted F.may_serve F.may_leave F.may_ready F.may_init F.may_make L.identity workers factory.now listeners) (rows_of parcels.new.items notes.new.items running.new.items) }
    ensures as_many { (length parcels.new.items ≡ length running.new.items) × (length notes.new.items ≡ length running.new.items) }
    ensures begun { RoseBy (length running.new.items) (Sp.starts spawner.old) (Sp.starts spawner.new) }
    ensures all { result ≡ None → length running.new.items ≡ workers }
    ensures fault { (fault : _) → result ≡ Some fault → length running.new.items < workers }
    ensures spawn { result ≡ Some Spawn → Rose (Sp.refusals spawner.old) (Sp.refusals spawner.new) }
    ensures unrefused { result ≢ Some Spawn → Sp.refusals spawner.new ≡ Sp.refusals spawner.old }
{
    for w in 0..workers {
        match start_worker(spawner, rt, alloc, factory, listeners, ring) {
            Ok(line) => {
                let Line {
                    parcels: producer,
                    notes: consumer,
                    running: one,
                } = line;
                parcels.push_reserved(producer);
                notes.push_reserved(consumer);
                running.push_reserved(Some(one));
            }
            Err(fault) => return Some(fault),
        }
    }
    None
}
