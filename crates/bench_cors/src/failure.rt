ghost use Rattle.std.specs.Prelude.{◌≡◌};
ghost use Rattle.bench_cors.specs.declared.failure.Failure.TheVariants.{Memory};

use std::alloc::AllocError;

/// Why the requests were not all asked.
#[derive(Drop)]
pub enum Failure {
    /// Memory ran out.
    Memory,
    /// The policy is refused.
    Refused,
}

impl From<AllocError> for Failure {
    ghost from_gives = { λ _ failure. failure ≡ Memory };

    fn from(_: AllocError) -> Failure {
        Failure::Memory
    }
}
