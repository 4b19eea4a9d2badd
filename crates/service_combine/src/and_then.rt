ghost use Rattle.std.specs.Prelude.{◌≡◌};
ghost use Rattle.service_core.specs.Meaning.{GivesOnly};
ghost use Rattle.service_combine.specs.Equations.{AndThenMay};
ghost use Rattle.service_combine.specs.Readying.{BothReady};
ghost use Rattle.service_combine.specs.Shown.{and_then_first, and_then_second};

use crate::AndThenServiceResponse;
use crate::both_ready::both_ready;
use crate::two_stages::TwoStages;
use futures::Future;
use futures::task::{Context, Poll};
use service_core::{NoMemory, Service, Watched};
use std::alloc::AllocError;
use std::marker::PhantomData;
use std::sync::Arc;

/// Service of `ServiceExt::and_then`: an Ok response of its first part is the request of its second part, and an error of
/// the first part is the answer (`actix_service::AndThenService`).
///
/// A clone shares both parts.
#[derive(Drop)]
pub struct AndThenService<A, B, Req> {
    pub(crate) parts: Arc<(A, B)>,
    pub(crate) request: PhantomData<Req>,
}

impl<A: Drop, B: Drop, Req> Clone for AndThenService<A, B, Req> {
    ghost is_clone = { λ s copy. (and_then_first copy ≡ and_then_first s) × (and_then_second copy ≡ and_then_second s) };

    fn clone(&self) -> Result<AndThenService<A, B, Req>, AllocError> {
        match Arc::try_clone(&self.parts) {
            Ok(parts) => Ok(AndThenService {
                parts,
                request: PhantomData,
            }),
            Err(e) => Err(e),
        }
    }
}

impl<A, B, Req> Service<Req> for AndThenService<A, B, Req>
where
    Req: Drop,
    A: Service<Req, Error: NoMemory> + Drop,
    B: Service<A::Response, Error = A::Error> + Drop,
{
    type Response = B::Response;

    type Error = A::Error;

    type Future = AndThenServiceResponse<A, B, Req>;

    ghost can_call = { λ s. A.can_call (and_then_first s) × B.can_call (and_then_second s) };

    ghost may = { AndThenMay A.Service B.Service A.Error.refusal };

    ghost may_begin = { λ s q f. GivesOnly ⟦<AndThenServiceResponse<A, B, Req> as Future>⟧ f
        (AndThenMay A.Service B.Service A.Error.refusal s q) };

    ghost may_ready = { λ s. BothReady (A.may_ready (and_then_first s)) (B.may_ready (and_then_second s)) };

    ghost begun_gives = { λ s q f begun. begun };

    fn poll_ready(&self, cx: &mut Context<'_>) -> Poll<Result<(), A::Error>> {
        both_ready::<A, B, Req, A::Response>(&self.parts.0, &self.parts.1, cx)
    }

    fn call(&self, req: Req) -> AndThenServiceResponse<A, B, Req> {
        match Arc::try_clone(&self.parts) {
            Ok(parts) => AndThenServiceResponse {
                state: TwoStages::First {
                    future: Watched::new(parts.0.call(req)),
                    parts,
                },
            },
            Err(_) => AndThenServiceResponse::refused(),
        }
    }
}
