ghost use Rattle.std.specs.Prelude.{None};

use http1_plain::{ErrorResponse, Response};
use std::alloc::{AllocError, Global};

/// The error of what never errs (`std::convert::Infallible`): no call gives one. As an answer it would stand for want of memory.
#[derive(Clone, Copy, Debug, PartialEq, Eq)]
pub struct Never;

impl ErrorResponse for Never {
    ghost response = { λ _. None };

    fn into_response(self, _alloc: Global) -> Result<Response, AllocError> {
        Err(AllocError)
    }
}
