//! What follows from the promise of a worker's job.
ghost use Rattle.rtrb.specs.Ring.{IsPair};
ghost use Rattle.server_jobs.specs.Jobs.{job_of};
ghost use Rattle.server_jobs.specs.Joins.{Accounts, IsBalanced, IsLine};
ghost use Rattle.server_jobs.specs.declared.handed.Handed.{Handed};
ghost use Rattle.server_jobs.specs.declared.line.Line.{Line};
ghost use Rattle.worker_job.specs.Jobs.{notes_of, parcels_of};
ghost use Rattle.worker_job.specs.Promise.{HandsOver};
ghost use Rattle.worker_job.specs.declared.departure.Departure.{Departure};
ghost use Rattle.worker_job.specs.declared.worker_job.WorkerJob.{WorkerJob};

use crate::departure::Departure;
use crate::worker_job::WorkerJob;
use server_jobs::{Handed, Handover, Job};
use server_run::ServerServiceFactory;
use service_core::{Link, ServiceFactory};

/// What a worker's job promises is an account of the ends of its rings, as a join of its thread asks for it.
pub fn what_is_handed_over_is_accounted_for<L, F>()
where
    L: Link,
    F: ServerServiceFactory<L>,
    ensures { (job : WorkerJob L F) (out : Handed L F (Departure F.Factory.Error F.Factory.InitError))
        → HandsOver L.identity F.may_serve F.may_leave F.may_ready F.may_init F.may_make job out → Accounts L.identity (parcels_of job) (notes_of job) out }
{}

/// So a worker's job that runs over the other ends of a line's rings, on which each connection that had come was sent back, can be
/// joined.
pub fn a_line_to_a_worker_can_be_joined<L, F>()
where
    L: Link + Send,
    F: ServerServiceFactory<L, Factory: ServiceFactory<L, Error: Send, InitError: Drop + Send>>
        + Send,
    ensures { (line : Line L (WorkerJob L F) (Handed L F (Departure F.Factory.Error F.Factory.InitError)))
        → IsPair line.parcels (parcels_of (job_of line.running)) → IsPair (notes_of (job_of line.running)) line.notes
        → IsBalanced L.identity (parcels_of (job_of line.running)) (notes_of (job_of line.running))
        → IsLine L.identity ⟦<WorkerJob<L, F> as Job>⟧.promise ⟦<Handed<L, F, Departure<<F::Factory as ServiceFactory<L>>::Error, <F::Factory as ServiceFactory<L>>::InitError>> as Handover<L>>⟧.handed line }
{}
