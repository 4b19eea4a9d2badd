//! What the handler answers.
ghost use Rattle.std.specs.Prelude.{IsSome};

use http1_plain::Response;
use service_core::{Ready, ready};
use std::alloc::{AllocError, Global};

/// The page, as a future that is there at once.
pub fn page(alloc: Global) -> Ready<Result<Response, AllocError>>
    ensures { IsSome result.value }
{
    ready(Response::text(alloc, 200, "three apples"))
}
