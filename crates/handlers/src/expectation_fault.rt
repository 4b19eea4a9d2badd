ghost use Rattle.handlers.specs.Expecting.{response_of_expectation};

use http1_plain::{ErrorResponse, Response};
use std::alloc::{AllocError, Global};

/// Why the body of a request is not to come.
#[derive(Clone, Copy, Debug, PartialEq, Eq, Drop)]
pub enum ExpectationFault {
    /// The script refuses each expectation.
    Refused,
}

impl ErrorResponse for ExpectationFault {
    ghost response = { response_of_expectation };

    fn into_response(self, alloc: Global) -> Result<Response, AllocError> {
        match self {
            ExpectationFault::Refused => Response::text(alloc, 417, "refused"),
        }
    }
}
