use service_core::How;

/// Why requests of a connection are no longer answered.
#[derive(Clone, Copy)]
pub(crate) enum Exit {
    /// It has ended so.
    Ended(How),
    /// Another protocol takes its link over.
    Upgrade,
}

/// What a part of a connection leads to.
#[derive(Clone, Copy)]
pub(crate) enum Turn {
    /// The connection goes on.
    On,
    /// No more requests are answered.
    Out(Exit),
}
