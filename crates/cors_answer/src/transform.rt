//! The transform.
ghost use Rattle.std.specs.Prelude.{◌≡◌, Some, None, IfOk};
ghost use Rattle.std.specs.Arc.{arc_value};
ghost use Rattle.cors_answer.specs.Meaning.{UnderPolicy, ReadyBy};
ghost use Rattle.cors_answer.specs.Shown.{policy_of, service_of};
ghost use Rattle.cors_rules.specs.Refusing.{config_error};
ghost use Rattle.cors_answer.specs.Transforms.{Refuses};

use crate::cors::Cors;
use crate::fault::CorsFault;
use crate::init_error::CorsInitError;
use crate::middleware::CorsMiddleware;
use cors_policy::{OriginRule, Policy};
use http1_plain::{ErrorResponse, Request, Response};
use service_core::{Ready, Service, Transform, err, ok};
use std::alloc::{AllocError, Global};
use std::sync::Arc;

impl<G: OriginRule> Cors<G> {
    // A copy of the policy, to be shared.
    fn shared_policy(&self) -> Result<Arc<Policy<G>>, AllocError>
        ensures { IfOk result (λ policy. arc_value policy ≡ self.now.policy) }
    {
        let policy = self.policy.copy(self.alloc)?;
        Ok(Arc::new(self.alloc, policy)?)
    }

    // The service under a copy of the policy.
    fn middleware<S>(&self, service: S) -> Result<CorsMiddleware<S, G>, AllocError>
    where
        S: Drop,
        ensures { IfOk result (λ m. (service_of m ≡ service) × (policy_of m ≡ self.now.policy)) }
    {
        match self.shared_policy() {
            Ok(policy) => Ok(CorsMiddleware {
                alloc: self.alloc,
                service,
                policy,
            }),
            Err(error) => {
                drop(service);
                Err(error)
            }
        }
    }
}

impl<S, G> Transform<S, Request> for Cors<G>
where
    S: Service<Request, Response = Response, Error: ErrorResponse> + Drop,
    G: OriginRule,
{
    type Response = Response;

    type Error = CorsFault;

    type Transform = CorsMiddleware<S, G>;

    type InitError = CorsInitError;

    type Future = Ready<Result<CorsMiddleware<S, G>, CorsInitError>>;

    ghost can_make = { λ c s. S.can_call s };

    ghost may = { λ c s q. UnderPolicy S.Error.response G.allowed c.policy (S.may s q) q };

    ghost may_ready = { λ c s. ReadyBy S.Error.response (S.may_ready s) };

    ghost may_init = { λ c e. Refuses c e };

    ghost may_make = { λ c. config_error c ≡ None };

    fn new_transform(&self, service: S) -> Ready<Result<CorsMiddleware<S, G>, CorsInitError>> {
        match self.config_error() {
            Some(error) => {
                drop(service);
                err(CorsInitError::Config(error))
            }
            None => match self.middleware(service) {
                Ok(middleware) => ok(middleware),
                Err(_) => err(CorsInitError::Memory),
            },
        }
    }
}
