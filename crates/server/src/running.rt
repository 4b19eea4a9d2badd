//! A run of the server, from the start of its workers on.
ghost use Rattle.std.specs.Prelude.{◌≡◌, ◌↔◌, ◌≤◌, ◌<◌, ◌+◌, ◌*◌, ℕ, [], false, IfOk, OnOk, OnErr, IfErr, IsErrOf, Err, length, vec_len};
ghost use Rattle.service_core.specs.Counts.{Rose};
ghost use Rattle.server_run.specs.Creating.{HasMeaningOf, IsStartup};
ghost use Rattle.server_run.specs.Report.{Tells, is_stop};
ghost use Rattle.server_run.specs.Serving.{MayFault, Untouched};
ghost use Rattle.server_run.specs.declared.report.End.TheVariants.{NoWorkers};
ghost use Rattle.server_run.specs.declared.serve_error.ServeError.TheVariants.{NoListener, Spawn};
ghost use Rattle.server.specs.Retiring.{Retirements};
ghost use Rattle.server.specs.Settings.{IsInRange};
ghost use Rattle.server.specs.Starting.{RoseBy, Started};
ghost use Rattle.server.specs.Stopping.{Gave, IsTold, ServesInTime};

use crate::joining::{join_all, stop_all, wake_all};
use crate::prepared::Prepared;
use crate::serving::serve_on;
use crate::settings::Settings;
use crate::starting::start_workers;
use server_acceptor::Acceptor;
use server_commands::Commands;
use server_jobs::{Clock, Spawner, ThreadFactory};
use server_run::{Done, Host, Listener, Report, ServeError};
use service_core::ServiceFactory;
use std::alloc::Global;
use worker_job::WorkerJob;

// Starts the workers, serves, and joins them.
pub(crate) fn serve_by<Ho, Li, F, Co, Cl, Sp, Do>(
    rt: &Ho,
    alloc: Global,
    factory: F,
    settings: Settings,
    listeners: &mut Vec<Li>,
    commands: &mut Co,
    clock: &mut Cl,
    spawner: &mut Sp,
    done: &mut Do,
) -> Result<Report, ServeError<<F::Factory as ServiceFactory<Li::Link>>::InitError>>
where
    Ho: Host + 'static,
    Li: Listener<Link: Send + 'static>,
    F: ThreadFactory<Li::Link> + 'static,
    Co: Commands,
    Cl: Clock,
    Sp: Spawner,
    Do: Done<Li::Link>,
    Li::Link: 'static,
    <F::Factory as ServiceFactory<Li::Link>>::Error: 'static,
    <F::Factory as ServiceFactory<Li::Link>>::InitError: 'static,
    requires ranges { IsInRange settings }
    requires few { vec_len listeners.old ≤ 64 }
    requires clones { (copy : F) → F.is_clone factory copy → HasMeaningOf F.may_serve F.may_leave F.may_ready F.may_init F.may_make factory copy }
    ensures no_listener { IsErrOf result NoListener ↔ (listeners.old.items ≡ []) }
    ensures spawn { (worker : ℕ) → result ≡ Err (Spawn worker)
        → Rose (Sp.refusals spawner.old) (Sp.refusals spawner.new) × RoseBy worker (Sp.starts spawner.old) (Sp.starts spawner.new) }
    ensures unrefused { (MayFault (F.may_ready factory) (F.may_init factory) (vec_len listeners.old) → ⊥) → ((worker : ℕ) → result ≡ Err (Spawn worker) → ⊥) → Sp.refusals spawner.new ≡ Sp.refusals spawner.old }
    ensures startup { IfErr result (IsStartup settings.workers (vec_len listeners.old) (F.may_init factory)) }
    ensures same_count { length listeners.new.items ≡ length listeners.old.items }
    ensures before { OnErr result (Untouched Li.given Li.left Do.taken Do.count Do.served listeners.old.items listeners.new.items done.old done.new) }
    ensures serves { IfOk result (λ report. ServesInTime Li.given Li.left Li.Link.identity (F.may_serve factory) (F.may_leave factory) Do.taken Do.count Do.served listeners.old.items listeners.new.items done.old done.new settings.workers (MayFault (F.may_ready factory) (F.may_init factory) (vec_len listeners.old)) report.end
        (Cl.told clock.old + 1000 * settings.shutdown_timeout ≤ Cl.told clock.new)) }
    ensures commanded { IfOk result (λ report. IsTold Co.given Co.stops Co.ended commands.old commands.new report.end) }
    ensures heard { OnErr result (Gave Co.given Co.stops commands.old commands.new) }
    ensures told { IfOk result (λ report. Tells Li.rest Li.ended Li.faults settings.retry_limit listeners.old.items listeners.new.items report) }
    ensures made { IfOk result (λ report. is_stop report.end ≡ false → (token : ℕ) → token < vec_len listeners.old → F.may_make factory token) }
    ensures started { OnOk result (Started (MayFault (F.may_ready factory) (F.may_init factory) (vec_len listeners.old)) settings.workers (Sp.starts spawner.old) (Sp.starts spawner.new)) }
    ensures alone { IfOk result (λ report. report.end ≡ NoWorkers → Retirements (F.may_init factory) (vec_len listeners.old) settings.workers 0 (Sp.starts spawner.old + settings.workers, Sp.refusals spawner.old) (Sp.starts spawner.new, Sp.refusals spawner.new)) }
{
    if listeners.is_empty() {
        return Err(ServeError::NoListener);
    }
    let count = listeners.len();
    let Prepared {
        room,
        mut parcels,
        mut notes,
        states,
        task,
    } = Prepared::new(alloc, settings.workers, count)?;
    let mut running = Vec::with_capacity(alloc, settings.workers)?;
    let fault = start_workers(
        spawner,
        rt,
        alloc,
        &factory,
        count,
        settings.ring,
        settings.workers,
        &mut parcels,
        &mut notes,
        &mut running,
    );
    if let Some(fault) = fault {
        let worker = running.len();
        stop_all(&mut parcels);
        wake_all::<Ho, WorkerJob<Li::Link, F>, Sp>(&running, spawner);
        join_all(rt, parcels, notes, running);
        return Err(fault.error(worker));
    }
    let acceptor = Acceptor::with_room(
        room,
        parcels,
        notes,
        count,
        settings.limit,
        settings.retry_limit,
        settings.shutdown_timeout,
    );
    serve_on(
        rt, alloc, &factory, &task, acceptor, running, states, listeners, commands, clock, spawner,
        done,
    )
}
