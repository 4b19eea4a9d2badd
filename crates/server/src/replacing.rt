//! How a worker that ended by a fault is joined while the server accepts, and replaced or retired.
ghost use Rattle.std.specs.Prelude.{◌≡◌, ◌⊎◌, ◌≤◌, ◌<◌, ℕ, true, false, None, Some, All, length, slice_get, slice_set, sum_by, is_some, IfSome};
ghost use Rattle.std.specs.List.{list_any};
ghost use Rattle.rtrb.specs.Ring.{IsPair, known_items};
ghost use Rattle.service_core.specs.Counts.{risen};
ghost use Rattle.server_acceptor.specs.Acceptors.{core_of, out_of, parcels_of, workers_of};
ghost use Rattle.server_acceptor.specs.Parting.{LeavesRest};
ghost use Rattle.server_acceptor.specs.Sending.{IsStopped};
ghost use Rattle.server_core.specs.Core.{in_order};
ghost use Rattle.server_jobs.specs.Jobs.{job_of};
ghost use Rattle.server_jobs.specs.Parcels.{is_stop};
ghost use Rattle.server_jobs.specs.Returning.{entries_of, entry_of_note};
ghost use Rattle.server_run.specs.Outcome.{is_stopped};
ghost use Rattle.server_run.specs.Serving.{MayFault};
ghost use Rattle.server_run.specs.declared.outcome.Outcome.{Outcome as OutcomeOf};
ghost use Rattle.server_run.specs.declared.outcome.Outcome.TheVariants.{Stopped as StoppedAs};
ghost use Rattle.server.specs.Parting.{StartsNone};
ghost use Rattle.server.specs.Replacing.{Crew, Goes, HasFaulted, IsAlone, IsEven, IsLeftHere, IsSuccessor, MayTakeBack, Recalls, Restarts, all_back};
ghost use Rattle.server.specs.Retiring.{AreRetired, IsUnfaulted, vacancy};
ghost use Rattle.worker_job.specs.Promise.{CanWork};

use crate::parting::part;
use crate::taking_back::{take_owed, take_parcels, take_rest};
use server_acceptor::Acceptor;
use server_jobs::{Handed, Running, Spawner, ThreadFactory};
use server_run::{Done, Host, Listener, Outcome};
use service_core::{Link, ServiceFactory};
use std::alloc::Global;
use worker_job::{Departure, WorkerJob};

// How a connection comes back that is left in the ring to a worker that ended by a fault: as any other one does after a stop.
fn outcome_of_left(stopping: bool, worker: usize) -> Outcome
    ensures stopped { is_stopped result ≡ true → stopping ≡ true }
    ensures after_stop { stopping ≡ true → result ≡ StoppedAs false }
    ensures left { IsLeftHere worker result }
{
    if stopping {
        return Outcome::Stopped { forced: false };
    }
    Outcome::Lost {
        worker: Some(worker),
    }
}

// Whether none takes the place of a worker that departed so: a stop was left in its ring or taken up, or no service that stood erred.
fn is_last<E, I>(left: bool, taken_up: bool, departure: &Departure<E, I>) -> bool
    ensures yes { result ≡ true → (left ≡ true) ⊎ ((taken_up ≡ true) ⊎ IsUnfaulted departure.now) }
    ensures no { result ≡ false → (left ≡ false) × (taken_up ≡ false) × (IsUnfaulted departure.now → ⊥) }
{
    if left {
        return true;
    }
    if taken_up {
        return true;
    }
    !matches!(departure, Departure::Faulted { .. })
}

// Takes back what a worker had that was joined. The job that takes its place, over the same rings and with the same factory, where one
// may: where a service of its that stood erred, and no stop came.
fn successor<Li, F, Do>(
    alloc: Global,
    acceptor: &mut Acceptor<Li::Link>,
    w: usize,
    handed: Handed<
        Li::Link,
        F,
        Departure<
            <F::Factory as ServiceFactory<Li::Link>>::Error,
            <F::Factory as ServiceFactory<Li::Link>>::InitError,
        >,
    >,
    listeners: usize,
    done: &mut Do,
) -> Option<WorkerJob<Li::Link, F>>
where
    Li: Listener<Link: Send>,
    F: ThreadFactory<Li::Link>,
    Do: Done<Li::Link>,
    requires may { (outcome : OutcomeOf) → MayTakeBack acceptor.old w handed.notes (length (all_back outcome w handed)) }
    requires founded { All (λ e. is_stopped e.outcome ≡ true → ⊥) (entries_of entry_of_note handed.owed.items) }
    requires to_it { IfSome (slice_get (parcels_of acceptor.old) w) (λ p. IsPair p handed.parcels) }
    requires spare { out_of acceptor.old ≤ Do.spare done.old }
    ensures goes { Goes Li.given Li.left Li.rest Li.Link.identity Li.ended Li.faults Do.taken Do.count Do.served acceptor.old acceptor.new done.old done.new false }
    ensures spare { out_of acceptor.new ≤ Do.spare done.new }
    ensures recalls { Recalls acceptor.old acceptor.new w handed }
    ensures job { IfSome result (IsSuccessor acceptor.new w handed listeners) }
    ensures calm { (job : _) → result ≡ Some job → (core_of acceptor.new).stopping ≡ None }
    ensures none { result ≡ None → (is_some (core_of acceptor.new).stopping ≡ true) ⊎ ((list_any is_stop (known_items handed.parcels) ≡ true) ⊎ IsUnfaulted handed.departure) }
{
    let Handed {
        mut parcels,
        mut notes,
        factory,
        mut owed,
        rest,
        departure,
    } = handed;
    take_owed::<Li, Do>(acceptor, w, &mut notes, &mut owed, done);
    let mut rest = rest.into_iter();
    take_rest::<Li, Do>(acceptor, w, &mut notes, &mut rest, done);
    let outcome = outcome_of_left(acceptor.is_stopping(), w);
    let stopped = take_parcels::<Li, Do>(acceptor, w, &mut notes, &mut parcels, outcome, done);
    if is_last(stopped, acceptor.is_stopping(), &departure) {
        return None;
    }
    acceptor.look_beside::<Li, Do>(w, &mut parcels, &mut notes);
    Some(WorkerJob::new(alloc, parcels, notes, factory, listeners))
}

// Starts the job that takes a worker's place, if there is one. None says that there is none, or that its start was refused.
fn start_next<Ho, L, F, Sp>(
    rt: &Ho,
    job: Option<WorkerJob<L, F>>,
    spawner: &mut Sp,
) -> Option<Running<WorkerJob<L, F>>>
where
    Ho: Host + 'static,
    L: Link + Send + 'static,
    F: ThreadFactory<L> + 'static,
    Sp: Spawner,
    <F::Factory as ServiceFactory<L>>::Error: 'static,
    <F::Factory as ServiceFactory<L>>::InitError: 'static,
    requires can { IfSome job CanWork }
    ensures job { IfSome result (λ next. job ≡ Some (job_of next)) }
    ensures started { IfSome result (λ next. (Sp.starts spawner.new ≡ risen (Sp.starts spawner.old)) × (Sp.refusals spawner.new ≡ Sp.refusals spawner.old)) }
    ensures none { result ≡ None → StartsNone job (Sp.starts spawner.old, Sp.refusals spawner.old) (Sp.starts spawner.new, Sp.refusals spawner.new) }
{
    let Some(job) = job else {
        return None;
    };
    spawner.start(rt, job).ok()
}

// Puts a worker in a place, where none runs.
fn settle<Ho, L, F>(
    rt: &Ho,
    running: &mut Vec<Option<Running<WorkerJob<L, F>>>>,
    w: usize,
    next: Running<WorkerJob<L, F>>,
)
where
    Ho: Host,
    L: Link + Send,
    F: ThreadFactory<L>,
    requires number { w < length running.old.items }
    ensures { running.new.items ≡ slice_set running.old.items w (Some next) }
{
    // None ran there any more.
    if let Some(other) = running[w].replace(next) {
        drop(other.join(rt));
    }
}

// Joins a worker that ended by a fault, hands on what it had, and starts another one in its place, or retires it. True says that no worker
// is left, and no stop came. The services of all of them are those of the factory.
pub(crate) fn replace_one<Ho, Li, F, Sp, Do>(
    rt: &Ho,
    alloc: Global,
    factory: &F,
    acceptor: &mut Acceptor<Li::Link>,
    w: usize,
    running: &mut Vec<Option<Running<WorkerJob<Li::Link, F>>>>,
    listeners: usize,
    spawner: &mut Sp,
    done: &mut Do,
) -> bool
where
    Ho: Host + 'static,
    Li: Listener<Link: Send + 'static>,
    F: ThreadFactory<Li::Link> + 'static,
    Sp: Spawner,
    Do: Done<Li::Link>,
    Li::Link: 'static,
    <F::Factory as ServiceFactory<Li::Link>>::Error: 'static,
    <F::Factory as ServiceFactory<Li::Link>>::InitError: 'static,
    requires number { (w < workers_of acceptor.old) × (0 < listeners) × (listeners ≤ 64) }
    requires crew { Crew F.may_serve F.may_leave F.may_ready F.may_init F.may_make Li.Link.identity factory.now listeners acceptor.old running.old.items }
    requires faulted { HasFaulted F.may_serve F.may_leave F.may_ready F.may_init F.may_make Li.Link.identity factory.now listeners acceptor.old w running.old.items }
    requires even { IsEven Li.Link.identity acceptor.old }
    requires spare { out_of acceptor.old ≤ Do.spare done.old }
    requires told { IsStopped (parcels_of acceptor.old) w → is_some (core_of acceptor.old).stopping ≡ true }
    ensures goes { Goes Li.given Li.left Li.rest Li.Link.identity Li.ended Li.faults Do.taken Do.count Do.served acceptor.old acceptor.new done.old done.new result }
    ensures crew { Crew F.may_serve F.may_leave F.may_ready F.may_init F.may_make Li.Link.identity factory.now listeners acceptor.new running.new.items }
    ensures as_many { length running.new.items ≡ length running.old.items }
    ensures spare { out_of acceptor.new ≤ Do.spare done.new }
    ensures rest { LeavesRest acceptor.old acceptor.new }
    ensures counts { Restarts (MayFault (F.may_ready factory.now) (F.may_init factory.now) listeners) (Sp.starts spawner.old, Sp.refusals spawner.old) (Sp.starts spawner.new, Sp.refusals spawner.new) }
    ensures last { result ≡ true → IsAlone acceptor.new × MayFault (F.may_ready factory.now) (F.may_init factory.now) listeners × (sum_by vacancy running.new.items ≡ length running.new.items) }
    // A job that runs there is in order, and where none does without a stop, it is known why.
    ensures placed { IfSome (slice_get running.new.items w) (λ now. is_some now ≡ true → in_order (core_of acceptor.new).order w ≡ true) }
    ensures retires { (before : ℕ × ℕ) → (core_of acceptor.new).stopping ≡ None → AreRetired (F.may_init factory.now) listeners running.old.items before (Sp.starts spawner.old, Sp.refusals spawner.old)
        → AreRetired (F.may_init factory.now) listeners running.new.items before (Sp.starts spawner.new, Sp.refusals spawner.new) }
{
    let Some(handed) = part::<Ho, Li, F, Do>(rt, acceptor, w, running) else {
        return false;
    };
    let job = successor::<Li, F, Do>(alloc, acceptor, w, handed, listeners, done);
    let Some(next) = start_next(rt, job, spawner) else {
        return acceptor.retire::<Li, Do>(w, done);
    };
    acceptor.replace::<Li, Do>(w);
    settle(rt, running, w, next);
    false
}
