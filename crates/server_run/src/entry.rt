use crate::Outcome;

/// A connection that the server is done with, with its link.
#[derive(Debug, Drop)]
pub struct Entry<L> {
    /// Its number among all connections that one call of `serve` hands on. They have the numbers below their count, each
    /// once, in any order.
    pub serial: u64,
    /// The place of its listener in the list of listeners.
    pub token: usize,
    /// Its number among the connections of that listener, from 0.
    pub place: u64,
    /// The link as its service ended it, or as the service's future handed it back: for want of memory, at a stop, or where its worker
    /// ended by a fault. Where no service began with it, the link is as it was accepted.
    pub link: L,
    /// How its service ended it, `Memory` where the service's future handed it back for want of memory, `Lost` where its worker ended
    /// by a fault, or none was left, or `Stopped` where the server was stopped before it was served to its end.
    pub outcome: Outcome,
}
