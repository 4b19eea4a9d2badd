ghost use Rattle.std.specs.Prelude.{◌≡◌};
ghost use Rattle.cors_answer.specs.declared.init_error.CorsInitError.TheVariants.{Memory};

use cors_rules::ConfigError;
use service_core::NoMemory;
use std::alloc::AllocError;

/// Why no service is put under a policy.
#[derive(Clone, Copy, Debug, PartialEq, Eq, Drop)]
pub enum CorsInitError {
    /// The policy is refused.
    Config(ConfigError),
    /// Memory ran out.
    Memory,
}

impl NoMemory for CorsInitError {
    ghost refusal = { Memory };

    fn no_memory() -> CorsInitError {
        CorsInitError::Memory
    }
}

impl From<AllocError> for CorsInitError {
    ghost from_gives = { λ error made. made ≡ Memory };

    fn from(_error: AllocError) -> CorsInitError {
        CorsInitError::Memory
    }
}
