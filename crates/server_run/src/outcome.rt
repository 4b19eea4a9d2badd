ghost use Rattle.std.specs.Prelude.{◌≡◌};
ghost use Rattle.server_run.specs.Outcome.{is_lost, is_served, is_stopped, outcome_of};

use service_core::How;

/// What became of a connection.
#[derive(Clone, Copy, Debug, PartialEq, Eq)]
pub enum Outcome {
    /// Its service served it to its end.
    Served,
    /// Its link could not be read.
    ReadFault,
    /// Its link could not be written.
    WriteFault,
    /// Another protocol took it over.
    Upgraded,
    /// No worker was left that could serve it to its end.
    Lost {
        /// The worker that had it and ended by a fault of its services. None where the connection waited for a worker, and none was left.
        worker: Option<usize>,
    },
    /// The server was stopped first.
    Stopped {
        /// Whether a service had begun with it. If none had, its link is as it was accepted.
        forced: bool,
    },
    /// Memory ran out while it was served.
    Memory,
}

impl Outcome {
    /// The outcome of a connection that its service ended so.
    pub fn of(how: How) -> Outcome
        ensures { result ≡ outcome_of how }
    {
        match how {
            How::Served => Outcome::Served,
            How::ReadFault => Outcome::ReadFault,
            How::WriteFault => Outcome::WriteFault,
            How::Upgraded => Outcome::Upgraded,
            How::Memory => Outcome::Memory,
        }
    }

    /// Whether its service served it to its end.
    pub fn is_served(&self) -> bool
        ensures { result ≡ is_served self.now }
    {
        matches!(self, Outcome::Served)
    }

    /// Whether the server was stopped before it was served to its end.
    pub fn is_stopped(&self) -> bool
        ensures { result ≡ is_stopped self.now }
    {
        matches!(self, Outcome::Stopped { .. })
    }

    /// Whether its worker ended by a fault, or none was left.
    pub fn is_lost(&self) -> bool
        ensures { result ≡ is_lost self.now }
    {
        matches!(self, Outcome::Lost { .. })
    }
}
