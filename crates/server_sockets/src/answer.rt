ghost use Rattle.server_sockets.specs.Answers.{MeansOf, MeansOfError};

use std::io;
use std::io::ErrorKind;

/// What a read or a write did.
#[derive(Clone, Copy)]
pub(crate) enum Answer {
    /// So many bytes were moved.
    Moved(usize),
    /// None, and it is to be tried again.
    NotYet,
    /// None, since the connection failed.
    Failed,
}

/// What the system's answer to a read or a write means.
pub(crate) fn answer_of(answer: io::Result<usize>) -> Answer
    ensures { MeansOf answer result }
{
    match answer {
        Ok(n) => Answer::Moved(n),
        Err(error) => answer_of_error(error.kind()),
    }
}

fn answer_of_error(kind: ErrorKind) -> Answer
    ensures { MeansOfError kind result }
{
    if kind == ErrorKind::WouldBlock {
        return Answer::NotYet;
    }
    if kind == ErrorKind::Interrupted {
        return Answer::NotYet;
    }
    Answer::Failed
}
