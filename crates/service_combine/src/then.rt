ghost use Rattle.std.specs.Prelude.{◌≡◌};
ghost use Rattle.service_core.specs.Meaning.{GivesOnly};
ghost use Rattle.service_combine.specs.Equations.{ThenMay};
ghost use Rattle.service_combine.specs.Readying.{BothReady};
ghost use Rattle.service_combine.specs.Shown.{then_first, then_second};

use crate::ThenServiceResponse;
use crate::both_ready::both_ready;
use crate::two_stages::TwoStages;
use futures::Future;
use futures::task::{Context, Poll};
use service_core::{NoMemory, Service, Watched};
use std::alloc::AllocError;
use std::marker::PhantomData;
use std::sync::Arc;

/// Service of `Pipeline::then`: the whole result of its first part is the request of its second part
/// (`actix_service::ThenService`).
///
/// A clone shares both parts.
#[derive(Drop)]
pub struct ThenService<A, B, Req> {
    pub(crate) parts: Arc<(A, B)>,
    pub(crate) request: PhantomData<Req>,
}

impl<A: Drop, B: Drop, Req> Clone for ThenService<A, B, Req> {
    ghost is_clone = { λ s copy. (then_first copy ≡ then_first s) × (then_second copy ≡ then_second s) };

    fn clone(&self) -> Result<ThenService<A, B, Req>, AllocError> {
        match Arc::try_clone(&self.parts) {
            Ok(parts) => Ok(ThenService {
                parts,
                request: PhantomData,
            }),
            Err(e) => Err(e),
        }
    }
}

impl<A, B, Req> Service<Req> for ThenService<A, B, Req>
where
    Req: Drop,
    A: Service<Req, Error: NoMemory> + Drop,
    B: Service<Result<A::Response, A::Error>, Error = A::Error> + Drop,
{
    type Response = B::Response;

    type Error = A::Error;

    type Future = ThenServiceResponse<A, B, Req>;

    ghost can_call = { λ s. A.can_call (then_first s) × B.can_call (then_second s) };

    ghost may = { ThenMay A.Service B.Service A.Error.refusal };

    ghost may_begin = { λ s q f. GivesOnly ⟦<ThenServiceResponse<A, B, Req> as Future>⟧ f
        (ThenMay A.Service B.Service A.Error.refusal s q) };

    ghost may_ready = { λ s. BothReady (A.may_ready (then_first s)) (B.may_ready (then_second s)) };

    ghost begun_gives = { λ s q f begun. begun };

    fn poll_ready(&self, cx: &mut Context<'_>) -> Poll<Result<(), A::Error>> {
        both_ready::<A, B, Req, Result<A::Response, A::Error>>(&self.parts.0, &self.parts.1, cx)
    }

    fn call(&self, req: Req) -> ThenServiceResponse<A, B, Req> {
        match Arc::try_clone(&self.parts) {
            Ok(parts) => ThenServiceResponse {
                state: TwoStages::First {
                    future: Watched::new(parts.0.call(req)),
                    parts,
                },
            },
            Err(_) => ThenServiceResponse::refused(),
        }
    }
}
