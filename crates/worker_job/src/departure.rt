ghost use Rattle.std.specs.Prelude.{◌≡◌};
ghost use Rattle.worker_job.specs.Promise.{is_fault};

/// Why the job of a worker ended.
#[derive(Drop)]
pub enum Departure<E, I> {
    /// It was stopped, and holds no connection: those that it served have ended, or it handed them back as they stood, by a stop that
    /// is not graceful.
    Left,
    /// A service could not be made for the first time.
    Unstarted {
        /// The place of its listener in the list of listeners.
        token: usize,
        /// The error of its factory.
        error: I,
    },
    /// A service whose readiness erred could not be made anew.
    Faulted {
        /// The place of its listener in the list of listeners.
        token: usize,
        /// The error of its readiness.
        readiness: E,
        /// The error of its factory.
        error: I,
    },
    /// There was no memory for it to work with.
    Memory,
}

impl<E, I> Departure<E, I> {
    /// Whether the worker ended by a fault: it did so but where it was stopped.
    pub fn is_fault(&self) -> bool
        ensures { result ≡ is_fault self.now }
    {
        !matches!(self, Departure::Left)
    }
}
