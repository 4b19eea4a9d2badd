ghost use Rattle.server_sockets.specs.Answers.{MeansOfRefusal};

use std::io::ErrorKind;

/// Why an accept gave no connection.
#[derive(Clone, Copy)]
pub(crate) enum Refusal {
    /// None has come yet.
    NotYet,
    /// One connection failed before it was accepted.
    Skipped,
    /// The listener failed.
    Failed,
}

/// What an error of an accept means (as in `actix_server`'s loop over `accept`).
pub(crate) fn refusal_of(kind: ErrorKind) -> Refusal
    ensures { MeansOfRefusal kind result }
{
    if kind == ErrorKind::WouldBlock {
        return Refusal::NotYet;
    }
    if kind == ErrorKind::ConnectionRefused {
        return Refusal::Skipped;
    }
    if kind == ErrorKind::ConnectionAborted {
        return Refusal::Skipped;
    }
    if kind == ErrorKind::ConnectionReset {
        return Refusal::Skipped;
    }
    Refusal::Failed
}
