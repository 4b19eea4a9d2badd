use std::alloc::AllocError;

/// Why the requests were not all answered.
#[derive(Drop)]
pub enum Failure {
    /// Memory ran out.
    Memory,
    /// The policy is refused.
    Refused,
}

impl From<AllocError> for Failure {
    fn from(_: AllocError) -> Failure {
        Failure::Memory
    }
}
