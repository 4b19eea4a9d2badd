ghost use Rattle.server.specs.Failing.{IsFault};

use server_run::ServeError;

// Why a worker was not started.
#[derive(Clone, Copy, Debug, PartialEq, Eq, Drop)]
pub(crate) enum StartFault {
    // No thread was started.
    Spawn,
    // There was no memory for its rings or its factory.
    Memory,
}

impl StartFault {
    // The error for the worker that was not started.
    pub(crate) fn error<I>(self, worker: usize) -> ServeError<I>
        ensures { IsFault self worker result }
    {
        match self {
            StartFault::Spawn => ServeError::Spawn { worker },
            StartFault::Memory => ServeError::Memory,
        }
    }
}
