/// What a turn of a worker comes to (what a poll of `actix-server`'s `ServerWorker` comes to).
#[derive(Drop)]
pub enum Turned<E, I> {
    /// It goes on, and waits for a connection, for a service, or for a place in the ring back.
    Going,
    /// It goes on, and something stayed in the ring to it for want of memory.
    Short,
    /// It was stopped, and leaves. True says that it held no connection that was served, and false that it handed some back as they
    /// stand, by a stop that is not graceful.
    Left(bool),
    /// A service could not be made for the first time.
    Unstarted {
        /// The place of its listener in the list of listeners.
        token: usize,
        /// The error of its factory.
        error: I,
    },
    /// A service was no longer ready, and could not be made again.
    Faulted {
        /// The place of its listener in the list of listeners.
        token: usize,
        /// The error of its readiness.
        readiness: E,
        /// The error of its factory.
        error: I,
    },
}
