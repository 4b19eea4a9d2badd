ghost use Rattle.handlers.specs.Handlers.{response_of_fault};
ghost use Rattle.handlers.specs.declared.handler_fault.HandlerFault.TheVariants.{Memory};

use http1_plain::{ErrorResponse, Response};
use service_core::NoMemory;
use std::alloc::{AllocError, Global};

/// Why a handler gave no response of its own.
#[derive(Clone, Copy, Debug, PartialEq, Eq, Drop)]
pub enum HandlerFault {
    /// It failed.
    Failed,
    /// Memory ran out.
    Memory,
}

impl NoMemory for HandlerFault {
    ghost refusal = { Memory };

    fn no_memory() -> HandlerFault {
        HandlerFault::Memory
    }
}

impl ErrorResponse for HandlerFault {
    ghost response = { response_of_fault };

    fn into_response(self, alloc: Global) -> Result<Response, AllocError> {
        match self {
            HandlerFault::Failed => Response::text(alloc, 500, "failed"),
            HandlerFault::Memory => Err(AllocError),
        }
    }
}
