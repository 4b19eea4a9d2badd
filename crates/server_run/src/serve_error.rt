ghost use Rattle.std.specs.Prelude.{◌≡◌};
ghost use Rattle.server_run.specs.declared.serve_error.ServeError.TheVariants.{Memory};

use std::alloc::AllocError;

/// Why nothing was served. It comes before the first connection is accepted.
#[derive(Clone, Copy, Debug, PartialEq, Eq, Drop)]
pub enum ServeError<I> {
    /// There is no listener to serve.
    NoListener,
    /// The thread of this worker could not be started.
    Spawn {
        /// The number of the worker, from 0.
        worker: usize,
    },
    /// The factory of this token refused its service on this worker.
    Startup {
        /// The number of the worker, from 0.
        worker: usize,
        /// The place of the listener in the list of listeners.
        token: usize,
        /// What the factory answered.
        error: I,
    },
    /// Memory ran out.
    Memory,
}

impl<I> From<AllocError> for ServeError<I> {
    ghost from_gives = { λ _ e. e ≡ Memory };

    fn from(_: AllocError) -> Self {
        ServeError::Memory
    }
}
