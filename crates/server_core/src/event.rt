//! What happens to an accept loop.
use crate::command::Command;

/// What happens to an accept loop, one step at a time. A worker goes by its number, a listener by its token.
#[derive(Clone, Copy, Debug, PartialEq, Eq)]
pub enum Event {
    /// A command came.
    Command(Command),
    /// A worker told that it has room again.
    Notice(usize),
    /// A connection came back from a worker, served or not.
    Back(usize),
    /// A listener gave a connection, which waits for a worker.
    Got(usize),
    /// The waiting connection went to a worker. `remains` says whether the worker has room for more.
    Sent { worker: usize, remains: bool },
    /// The ring of a worker had no place for the waiting connection.
    RingFull(usize),
    /// A worker ended by a fault.
    Faulted(usize),
    /// Another one took the place of a worker that faulted.
    Replaced(usize),
    /// A worker that faulted gets no replacement.
    Retired(usize),
    /// A listener failed to give a connection.
    ListenerFailed(usize),
    /// A listener gives no more connections.
    ListenerEnded(usize),
}
