ghost use Rattle.std.specs.Prelude.{◌≡◌, Some, None};
ghost use Rattle.cors_answer.specs.Faults.{fault_response};
ghost use Rattle.cors_answer.specs.declared.fault.CorsFault.TheVariants.{Memory};

use http1_plain::{ErrorResponse, Response};
use service_core::NoMemory;
use std::alloc::{AllocError, Global};

/// The error of a service under a policy.
#[derive(Drop)]
pub enum CorsFault {
    /// The inner service's error, as the response that it answers.
    Answered(Response),
    /// Memory ran out.
    Memory,
}

impl NoMemory for CorsFault {
    ghost refusal = { Memory };

    fn no_memory() -> CorsFault {
        CorsFault::Memory
    }
}

impl ErrorResponse for CorsFault {
    ghost response = { fault_response };

    fn into_response(self, _alloc: Global) -> Result<Response, AllocError> {
        match self {
            CorsFault::Answered(response) => Ok(response),
            CorsFault::Memory => Err(AllocError),
        }
    }
}
