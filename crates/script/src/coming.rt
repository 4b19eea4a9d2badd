//! What a listener of a script answers next.

/// What a listener of a script answers next.
#[derive(Clone, Copy, Debug, PartialEq, Eq)]
pub enum Coming {
    /// The next of its connections.
    Connection,
    /// That none has come yet.
    Late,
    /// That a connection was lost.
    Skip,
    /// That it failed.
    Failure,
}
