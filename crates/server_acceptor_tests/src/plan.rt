/// What an acceptor is like, and who stands beside it.
#[derive(Clone, Copy)]
pub(crate) struct Plan {
    /// How many workers there are.
    pub(crate) workers: usize,
    /// How many places each ring has.
    pub(crate) places: usize,
    /// How many listeners there are.
    pub(crate) listeners: usize,
    /// How many connections a worker may have.
    pub(crate) limit: u64,
    /// How often a listener may fail.
    pub(crate) retry_limit: u64,
    /// How often room for entries is made.
    pub(crate) rooms: u64,
    /// By how many milliseconds the clock goes on in a turn.
    pub(crate) step: u64,
}

/// One worker and one listener.
pub(crate) const PLAIN: Plan = Plan {
    workers: 1,
    places: 8,
    listeners: 1,
    limit: 8,
    retry_limit: 3,
    rooms: u64::MAX,
    step: 1,
};
