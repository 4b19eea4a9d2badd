//! The middleware.
ghost use Rattle.std.specs.Prelude.{◌≡◌, IfOk};
ghost use Rattle.service_core.specs.Making.{LiesWithin};
ghost use Rattle.service_core.specs.Meaning.{GivesOnly};
ghost use Rattle.cors_answer.specs.Meaning.{UnderPolicy, ReadyBy};
ghost use Rattle.cors_answer.specs.Shown.{policy_of, service_of};

use crate::fault::CorsFault;
use crate::future::{CorsFuture, State};
use crate::verdict::{Verdict, decide};
use cors_policy::{OriginRule, Policy};
use futures::Future;
use futures::task::{Context, Poll};
use http1_plain::{ErrorResponse, Request, Response};
use service_core::{Service, Watched};
use std::alloc::{AllocError, Global};
use std::sync::Arc;

/// A service under a policy (`CorsMiddleware` of the crate actix-cors).
#[derive(Drop)]
pub struct CorsMiddleware<S, G> {
    pub(crate) alloc: Global,
    pub(crate) service: S,
    pub(crate) policy: Arc<Policy<G>>,
}

impl<S: Clone, G: OriginRule> Clone for CorsMiddleware<S, G> {
    ghost is_clone = { λ m copy. S.is_clone (service_of m) (service_of copy) × (policy_of copy ≡ policy_of m) };

    fn clone(&self) -> Result<CorsMiddleware<S, G>, AllocError> {
        let service = self.service.clone()?;
        let policy = Arc::try_clone(&self.policy)?;
        Ok(CorsMiddleware {
            alloc: self.alloc,
            service,
            policy,
        })
    }
}

impl<S, G> CorsMiddleware<S, G>
where
    S: Service<Request, Response = Response, Error: ErrorResponse> + Clone,
    G: OriginRule,
{
    /// A copy, which shares the policy. It means what this service means, where the copy of the inner service means what
    /// that service means.
    pub fn clone(&self) -> Result<CorsMiddleware<S, G>, AllocError>
        ensures clone { IfOk result (⟦<CorsMiddleware<S, G> as Clone>⟧.is_clone self.now) }
        ensures meaning { IfOk result (λ copy. LiesWithin S.Service (service_of copy) (S.may (service_of self.now)) (S.may_ready (service_of self.now)) (S.may_begin (service_of self.now))
            → LiesWithin ⟦<CorsMiddleware<S, G> as Service<Request>>⟧ copy (⟦<CorsMiddleware<S, G> as Service<Request>>⟧.may self.now)
            (⟦<CorsMiddleware<S, G> as Service<Request>>⟧.may_ready self.now) (⟦<CorsMiddleware<S, G> as Service<Request>>⟧.may_begin self.now)) }
    {
        let copy = Clone::clone(self)?;
        Ok(copy)
    }
}

impl<S, G> Service<Request> for CorsMiddleware<S, G>
where
    S: Service<Request, Response = Response, Error: ErrorResponse>,
    G: OriginRule,
{
    type Response = Response;

    type Error = CorsFault;

    type Future = CorsFuture<S::Future, G>;

    ghost can_call = { λ m. S.can_call (service_of m) };

    ghost may = { λ m q. UnderPolicy S.Error.response G.allowed (policy_of m) (S.may (service_of m) q) q };

    ghost may_begin = { λ m q f. GivesOnly ⟦<CorsFuture<S::Future, G> as Future>⟧ f
        (UnderPolicy S.Error.response G.allowed (policy_of m) (S.may (service_of m) q) q) };

    ghost may_ready = { λ m. ReadyBy S.Error.response (S.may_ready (service_of m)) };

    ghost begun_gives = { λ s q f h. h };

    fn poll_ready(&self, cx: &mut Context<'_>) -> Poll<Result<(), CorsFault>> {
        match self.service.poll_ready(cx) {
            Poll::Pending => Poll::Pending,
            Poll::Ready(Ok(())) => Poll::Ready(Ok(())),
            Poll::Ready(Err(error)) => match error.into_response(self.alloc) {
                Ok(response) => Poll::Ready(Err(CorsFault::Answered(response))),
                Err(_) => Poll::Ready(Err(CorsFault::Memory)),
            },
        }
    }

    fn call(&self, req: Request) -> CorsFuture<S::Future, G> {
        match decide(&self.policy, self.alloc, &req.head) {
            Err(_) => {
                drop(req);
                CorsFuture::at_once(self.alloc, Err(CorsFault::Memory))
            }
            Ok(Verdict::Answered(response)) => {
                drop(req);
                CorsFuture::at_once(self.alloc, Ok(response))
            }
            Ok(Verdict::HandedOn(grant)) => match Arc::try_clone(&self.policy) {
                Ok(policy) => CorsFuture {
                    alloc: self.alloc,
                    state: State::Waiting {
                        future: Watched::new(self.service.call(req)),
                        policy,
                        grant,
                    },
                },
                Err(_) => {
                    drop(req);
                    drop(grant);
                    CorsFuture::at_once(self.alloc, Err(CorsFault::Memory))
                }
            },
        }
    }
}
