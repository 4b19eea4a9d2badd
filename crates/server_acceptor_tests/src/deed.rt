/// What a worker does.
#[derive(Clone, Copy)]
pub(crate) enum Deed {
    /// It tells that its services stand.
    Ready,
    /// It tells that it ends by a fault.
    Fault,
    /// It takes what comes next, and keeps it.
    Take,
    /// It takes a connection, and hands it back.
    Back,
    /// It takes a connection, and hands it back as one that was stopped.
    Halt,
    /// It hands back a connection that it did not take.
    Stray,
    /// Nothing. How many of its notes were not taken yet?
    Notes,
}
