use std::alloc::AllocError;

/// Why no steps are printed.
#[derive(Clone, Copy)]
pub enum Failure {
    /// A read failed.
    Read,
    /// Memory ran out.
    Memory,
}

impl From<AllocError> for Failure {
    fn from(_: AllocError) -> Failure {
        Failure::Memory
    }
}
