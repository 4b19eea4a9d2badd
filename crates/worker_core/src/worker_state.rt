//! The state of a worker.

/// What a worker does, as `actix-server`'s `WorkerState`, whose `Shutdown` is `Draining` here.
#[derive(Clone, Copy, Debug, PartialEq, Eq)]
pub enum WorkerState {
    /// At least one of its services is not ready, and it admits no connection.
    Unavailable,
    /// All of its services are ready, and it admits connections.
    Available,
    /// A service that failed is being made again, and it admits no connection.
    Restarting,
    /// It waits for the connections that are left, and admits no other one.
    Draining,
}
