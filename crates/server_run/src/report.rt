/// How a run of the server ended.
#[derive(Clone, Copy, Debug, PartialEq, Eq)]
pub enum End {
    /// No listener gives any more connections, and every connection was handed on.
    Drained,
    /// A command stopped it, and every connection was handed on.
    Stopped {
        /// Whether those that were served had time to end.
        graceful: bool,
    },
    /// Each worker ended by a fault of its services, and none could be replaced. Every connection was handed on.
    NoWorkers,
    /// Memory ran out, and nothing more was accepted.
    Memory,
}

/// What became of a listener.
#[derive(Clone, Copy, Debug, PartialEq, Eq)]
pub enum ListenerState {
    /// It gives no more connections.
    Ended,
    /// It failed so often in a row that it was given up.
    Faulted {
        /// How often it failed with no connection between: the retry limit.
        failures: u64,
    },
    /// It may give more.
    Open,
}

/// How a run of the server ended, and what became of its listeners, by token.
#[derive(Debug, Drop)]
pub struct Report {
    /// Why nothing more was accepted.
    pub end: End,
    /// One state for each listener, at the place that is its token.
    pub listeners: Vec<ListenerState>,
}
