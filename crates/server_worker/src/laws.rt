//! What holds of a worker's services in every turn.
ghost use Rattle.std.specs.Prelude.{ℕ, List};
ghost use Rattle.worker_core.specs.WorkerCore.{Worker};
ghost use Rattle.worker_core.specs.WorkerRuns.{AllAllowed};
ghost use Rattle.server_worker.specs.Asking.{Check, calls_from};
ghost use Rattle.server_worker.specs.Changes.{ChangesAtMost};

/// In one turn, by the checks of its services, the state of a service changes at most twice.
pub fn a_service_changes_at_most_twice_a_turn()
    ensures { (w : Worker) (checks : List Check) → AllAllowed w (calls_from 0 checks) → (token : ℕ) → ChangesAtMost w (calls_from 0 checks) token 2 }
{}
