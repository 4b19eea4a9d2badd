//! Why a script is not served.
ghost use Rattle.std.specs.Prelude.{◌≡◌};
ghost use Rattle.cors_answer.specs.declared.init_error.CorsInitError.TheVariants.{Memory};
ghost use Rattle.replaying.specs.declared.replay_error.ReplayError.TheVariants.{Startup};

use cors_answer::CorsInitError;
use std::alloc::AllocError;

/// Why a script is not served.
#[derive(Drop)]
pub enum ReplayError {
    /// Its policy is refused, or memory ran out.
    Startup(CorsInitError),
    /// A worker could not be started.
    NoWorker,
}

impl From<AllocError> for ReplayError {
    ghost from_gives = { λ error made. made ≡ Startup Memory };

    fn from(_error: AllocError) -> ReplayError {
        ReplayError::Startup(CorsInitError::Memory)
    }
}
