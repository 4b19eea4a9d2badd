//! What a worker does about a stop.

/// What a worker does once it was told to stop, as `actix-server`'s `ServerWorker` does.
#[derive(Clone, Copy, Debug, PartialEq, Eq)]
pub enum StopAnswer {
    /// It waits for the connections that are left.
    Drain,
    /// It leaves at once, and says whether no connection was left.
    Leave(bool),
}
