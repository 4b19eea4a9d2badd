use crate::deed::Deed;

/// What a test does next.
#[derive(Clone, Copy)]
pub(crate) enum Act {
    /// The acceptor is turned.
    Turn,
    /// The acceptor is turned, and its events are only counted.
    Count,
    /// It is turned until it does not go on, and each worker hands back what it has between turns.
    Rounds,
    /// What waits is placed by hand.
    Place,
    /// The worker of that number does this.
    Worker(usize, Deed),
    /// The worker of that number leaves the order.
    Leave(usize),
    /// It is put back in the order.
    Replace(usize),
    /// It is retired.
    Retire(usize),
    /// Is nothing left to do?
    Done,
    /// What came back.
    Entries,
    /// Whether each of so many connections of each listener came back once.
    Once(u64),
}
