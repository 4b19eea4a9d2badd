ghost use Rattle.std.specs.Prelude.{◌≡◌};

use crate::job::Job;
use std::snapshot::Snapshot;
use std::thread::Promise;

// The promise of a job, as its thread keeps it.
#[derive(Drop)]
pub(crate) struct Kept<J: Job> {
    pub(crate) job: Snapshot<J>,
}

impl<J: Job> Kept<J> {
    pub(crate) fn of(job: &J) -> Kept<J>
        ensures { result.job.value ≡ job.now }
    {
        Kept {
            job: Snapshot::of(job),
        }
    }
}

impl<J: Job> Promise<J::Out> for Kept<J> {
    ghost kept_by = { λ kept out. J.promise kept.job.value out };
}
