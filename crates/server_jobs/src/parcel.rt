/// What goes over the ring to a worker.
#[derive(Drop)]
pub enum Parcel<L> {
    /// A connection.
    Conn {
        /// Its number among all that were accepted.
        serial: u64,
        /// The place of its listener in the list of listeners.
        token: usize,
        /// Its number among the connections of that listener.
        place: u64,
        /// Its link, as it was accepted.
        link: L,
    },
    /// No connection follows, and the worker is to leave.
    Stop {
        /// Whether it may serve to their end those that it has.
        graceful: bool,
    },
}
