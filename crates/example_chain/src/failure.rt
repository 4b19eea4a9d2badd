ghost use Rattle.std.specs.Prelude.{◌≡◌};
ghost use Rattle.example_chain.specs.declared.failure.Failure.TheVariants.{Memory, Policy};
ghost use Rattle.cors_answer.specs.declared.init_error.CorsInitError.TheVariants.{Config, Memory as NoRoom};

use cors_answer::CorsInitError;
use service_core::NoMemory;
use std::alloc::AllocError;

/// Why the program has no answers to show.
#[derive(Clone, Copy, Debug, Drop, PartialEq, Eq)]
pub enum Failure {
    /// Memory ran out.
    Memory,
    /// The policy is refused.
    Policy,
}

impl Failure {
    /// Why no service came to stand under the policy.
    pub fn of_policy(error: CorsInitError) -> Failure
        ensures { elim error [
          | Config _ ↦ result ≡ Policy
          | NoRoom ↦ result ≡ Memory
        ] }
    {
        match error {
            CorsInitError::Config(_) => Failure::Policy,
            CorsInitError::Memory => Failure::Memory,
        }
    }
}

impl From<AllocError> for Failure {
    ghost from_gives = { λ _ failure. failure ≡ Memory };

    fn from(_: AllocError) -> Failure {
        Failure::Memory
    }
}

impl NoMemory for Failure {
    ghost refusal = { Memory };

    fn no_memory() -> Failure {
        Failure::Memory
    }
}
