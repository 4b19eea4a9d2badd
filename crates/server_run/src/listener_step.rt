use crate::MemoryLink;

/// What a `MemoryListener` answers once.
#[derive(Drop)]
pub enum ListenerStep {
    /// This connection.
    Give(MemoryLink),
    /// None has come yet.
    NotYet,
    /// One connection failed.
    Skip,
    /// The listener failed.
    Fail,
}
