//! What a service of a worker says of its readiness.

/// What a service answered to a readiness check, as `actix-server`'s `ServerWorker` reads it.
#[derive(Clone, Copy, Debug, PartialEq, Eq)]
pub enum ReadyAnswer {
    /// It takes a connection.
    Ready,
    /// It takes none for now.
    NotReady,
    /// It failed, and has to be made again.
    Err,
}
