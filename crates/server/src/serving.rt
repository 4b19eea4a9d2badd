//! How the server serves once its workers are started.
ghost use Rattle.std.specs.Prelude.{◌≡◌, ◌≤◌, ◌<◌, ◌+◌, ◌*◌, ℕ, All, [], false, IfOk, IfErr, OnErr, IsErrOf, Err, length, vec_len, vec_capacity};
ghost use Rattle.server_acceptor.specs.Acceptors.{limit_of, notes_of, parcels_of, retry_limit_of, shutdown_timeout_of};
ghost use Rattle.server_acceptor.specs.Beginning.{IsNew};
ghost use Rattle.server_run.specs.Creating.{IsStartup};
ghost use Rattle.server_run.specs.Report.{Tells, is_stop};
ghost use Rattle.server_run.specs.Serving.{MayFault, Untouched};
ghost use Rattle.server_run.specs.declared.report.End.TheVariants.{NoWorkers};
ghost use Rattle.server_run.specs.declared.serve_error.ServeError.TheVariants.{NoListener, Spawn};
ghost use Rattle.server.specs.Failing.{IsErrorOf};
ghost use Rattle.server.specs.Replacing.{Restarts};
ghost use Rattle.server.specs.Retiring.{Retirements};
ghost use Rattle.server.specs.Rows.{rows_of};
ghost use Rattle.server.specs.Starting.{HasStarted};
ghost use Rattle.server.specs.Stopping.{Gave, IsTold, ServesInTime};

use crate::accepting::accept_on;
use crate::joining::{join_all, stop_all, wake_all};
use crate::returning::return_all;
use crate::states::tell_states;
use crate::unstarted::Unstarted;
use server_acceptor::Acceptor;
use server_commands::Commands;
use server_jobs::{Clock, OneTask, Running, Spawner, ThreadFactory};
use server_run::{Done, Host, Listener, ListenerState, Report, ServeError};
use service_core::{Link, ServiceFactory};
use std::alloc::Global;
use worker_job::WorkerJob;

// The error where a service could not be made, or where there was no memory.
fn error_of<I>(unstarted: Option<Unstarted<I>>) -> ServeError<I>
    ensures { IsErrorOf unstarted result }
{
    match unstarted {
        Some(found) => ServeError::Startup {
            worker: found.worker,
            token: found.token,
            error: found.error,
        },
        None => ServeError::Memory,
    }
}

// Serves with workers that were started, and joins them.
pub(crate) fn serve_on<Ho, Li, F, Co, Cl, Sp, Do>(
    rt: &Ho,
    alloc: Global,
    factory: &F,
    task: &OneTask,
    acceptor: Acceptor<Li::Link>,
    running: Vec<Option<Running<WorkerJob<Li::Link, F>>>>,
    states: Vec<ListenerState>,
    listeners: &mut Vec<Li>,
    commands: &mut Co,
    clock: &mut Cl,
    spawner: &mut Sp,
    done: &mut Do,
) -> Result<Report, ServeError<<F::Factory as ServiceFactory<Li::Link>>::InitError>>
where
    Ho: Host + 'static,
    Li: Listener<Link: Send + 'static>,
    F: ThreadFactory<Li::Link> + 'static,
    Co: Commands,
    Cl: Clock,
    Sp: Spawner,
    Do: Done<Li::Link>,
    Li::Link: 'static,
    <F::Factory as ServiceFactory<Li::Link>>::Error: 'static,
    <F::Factory as ServiceFactory<Li::Link>>::InitError: 'static,
    requires some { (1 ≤ vec_len running) × (1 ≤ vec_len listeners.old) × (vec_len listeners.old ≤ 64) }
    requires fresh { IsNew acceptor (parcels_of acceptor) (notes_of acceptor) (vec_len listeners.old) (limit_of acceptor) (retry_limit_of acceptor) (shutdown_timeout_of acceptor) }
    requires as_many { (length (parcels_of acceptor) ≡ length running.items) × (length (notes_of acceptor) ≡ length running.items) }
    requires started { All (HasStarted F.may_serve F.may_leave F.may_ready F.may_init F.may_make Li.Link.identity (length running.items) factory.now (vec_len listeners.old)) (rows_of (parcels_of acceptor) (notes_of acceptor) running.items) }
    requires room { (states.items ≡ []) × (vec_len listeners.old ≤ vec_capacity states) }
    ensures same_count { length listeners.new.items ≡ length listeners.old.items }
    ensures no_listener { IsErrOf result NoListener → ⊥ }
    ensures no_spawn { (w : ℕ) → result ≡ Err (Spawn w) → ⊥ }
    ensures startup { IfErr result (IsStartup (vec_len running) (vec_len listeners.old) (F.may_init factory.now)) }
    ensures before { OnErr result (Untouched Li.given Li.left Do.taken Do.count Do.served listeners.old.items listeners.new.items done.old done.new) }
    ensures serves { IfOk result (λ report. ServesInTime Li.given Li.left Li.Link.identity (F.may_serve factory.now) (F.may_leave factory.now) Do.taken Do.count Do.served listeners.old.items listeners.new.items done.old done.new (length running.items) (MayFault (F.may_ready factory.now) (F.may_init factory.now) (vec_len listeners.old)) report.end
        (Cl.told clock.old + 1000 * shutdown_timeout_of acceptor ≤ Cl.told clock.new)) }
    ensures commanded { IfOk result (λ report. IsTold Co.given Co.stops Co.ended commands.old commands.new report.end) }
    ensures heard { OnErr result (Gave Co.given Co.stops commands.old commands.new) }
    ensures told { IfOk result (λ report. Tells Li.rest Li.ended Li.faults (retry_limit_of acceptor) listeners.old.items listeners.new.items report) }
    ensures made { IfOk result (λ report. is_stop report.end ≡ false → (token : ℕ) → token < vec_len listeners.old → F.may_make factory.now token) }
    ensures alone { IfOk result (λ report. report.end ≡ NoWorkers → Retirements (F.may_init factory.now) (vec_len listeners.old) (length running.items) 0 (Sp.starts spawner.old, Sp.refusals spawner.old) (Sp.starts spawner.new, Sp.refusals spawner.new)) }
    ensures counts { Restarts (MayFault (F.may_ready factory.now) (F.may_init factory.now) (vec_len listeners.old)) (Sp.starts spawner.old, Sp.refusals spawner.old) (Sp.starts spawner.new, Sp.refusals spawner.new) }
{
    let mut acceptor = acceptor;
    let mut running = running;
    let mut states = states;
    let end = accept_on(
        rt,
        alloc,
        factory,
        task,
        &mut acceptor,
        &mut running,
        listeners,
        commands,
        clock,
        spawner,
        done,
    );
    let Some(end) = end else {
        let (mut parcels, notes) = acceptor.into_rings();
        stop_all(&mut parcels);
        wake_all::<Ho, WorkerJob<Li::Link, F>, Sp>(&running, spawner);
        return Err(error_of(join_all(rt, parcels, notes, running)));
    };
    tell_states(&acceptor, listeners.len(), &mut states);
    let (parcels, notes) = acceptor.into_rings();
    wake_all::<Ho, WorkerJob<Li::Link, F>, Sp>(&running, spawner);
    return_all(rt, parcels, notes, running, done);
    Ok(Report {
        end,
        listeners: states,
    })
}
