use std::alloc::AllocError;

/// Why nothing was measured.
#[derive(Drop)]
pub enum Failure {
    /// Memory ran out.
    Memory,
    /// The server didn't start, or a count is not what it has to be.
    Wrong,
    /// The system tells no time.
    NoTime,
}

impl From<AllocError> for Failure {
    fn from(_: AllocError) -> Failure {
        Failure::Memory
    }
}
