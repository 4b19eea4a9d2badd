use worker_job::Departure;

/// How the job of a worker ended.
#[derive(Clone, Copy, PartialEq, Eq)]
pub(crate) enum Ending {
    /// It was stopped, and held no connection.
    Left,
    /// The factory of that token refused its service by an error that names a token.
    Unstarted {
        /// The token.
        token: usize,
        /// The token that the error names.
        named: usize,
    },
    /// The service of that token erred, by an error that names a token, and the factory refused another one by such an error.
    Faulted {
        /// The token.
        token: usize,
        /// The token that the service's error names.
        erred: usize,
        /// The token that the factory's error names.
        named: usize,
    },
    /// There was no memory.
    Memory,
}

impl Ending {
    /// The ending that the job tells.
    pub(crate) fn of(departure: &Departure<usize, usize>) -> Ending {
        match departure {
            Departure::Left => Ending::Left,
            Departure::Unstarted { token, error } => Ending::Unstarted {
                token: *token,
                named: *error,
            },
            Departure::Faulted {
                token,
                readiness,
                error,
            } => Ending::Faulted {
                token: *token,
                erred: *readiness,
                named: *error,
            },
            Departure::Memory => Ending::Memory,
        }
    }
}
