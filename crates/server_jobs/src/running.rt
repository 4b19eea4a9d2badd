ghost use Rattle.std.specs.Prelude.{◌≡◌};
ghost use Rattle.server_jobs.specs.Jobs.{job_of, number_of};

use crate::job::Job;
use crate::kept::Kept;
use server_run::Host;
use std::thread::{PromisedHandle, Threads};

/// A job that runs. It has to be joined: nothing else takes it.
pub struct Running<J: Job> {
    pub(crate) handle: PromisedHandle<J::Out, Kept<J>>,
    pub(crate) number: usize,
}

impl<J: Job> Running<J> {
    /// The number of its seat.
    pub fn number(&self) -> usize
        ensures { result ≡ number_of self.now }
    {
        self.number
    }

    /// Waits for the end of its thread, and hands on what the job promised.
    pub fn join<Ho: Host>(self, rt: &Ho) -> J::Out
        ensures { J.promise (job_of self) result }
    {
        self.end(rt)
    }

    // The same, of what has threads alone.
    pub(crate) fn end<Th: Threads>(self, rt: &Th) -> J::Out
        ensures { J.promise (job_of self) result }
    {
        let Running { handle, number: _ } = self;
        handle.join(rt)
    }
}
