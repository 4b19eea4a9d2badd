//! What holds of a worker after any calls.
ghost use Rattle.std.specs.Prelude.{◌≡◌, ℕ, ◌<◌, ◌≤◌, List, count_by, length};
ghost use Rattle.worker_core.specs.Statuses.{is_failed, is_restarting};
ghost use Rattle.worker_core.specs.WorkerCore.{Worker, new_worker, state_of, status_of};
ghost use Rattle.worker_core.specs.WorkerRuns.{AllAllowed, WorkerCall, after_calls};
ghost use Rattle.worker_core.specs.declared.service_status.ServiceStatus.TheVariants as status;
ghost use Rattle.worker_core.specs.declared.worker_state.WorkerState.TheVariants as state;

/// Over every list of allowed calls at most one service is made again at a time.
pub fn one_service_restarts_at_a_time()
    ensures { (listeners : ℕ) (calls : List WorkerCall) → 0 < listeners → listeners ≤ 64
        → AllAllowed (new_worker listeners) calls
        → count_by is_restarting (after_calls (new_worker listeners) calls).services ≤ 1 }
{}

/// Over every list of allowed calls a failed service waits only while another one is made again.
pub fn no_failed_service_is_forgotten()
    ensures { (listeners : ℕ) (calls : List WorkerCall) → 0 < listeners → listeners ≤ 64
        → AllAllowed (new_worker listeners) calls
        → 0 < count_by is_failed (after_calls (new_worker listeners) calls).services
        → 0 < count_by is_restarting (after_calls (new_worker listeners) calls).services }
{}

/// A worker is available only where each of its services is.
pub fn an_available_worker_has_each_service()
    ensures { (w : Worker) (token : ℕ) → state_of w ≡ state.Available → token < length w.services
        → status_of w token ≡ status.Available }
{}
