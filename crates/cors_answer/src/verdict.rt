//! What becomes of a request.
ghost use Rattle.std.specs.Prelude.{◌≡◌, [], true, Some, IfOk, IfSome, is_some, option_copied};
ghost use Rattle.http1_plain.specs.Views.{view};
ghost use Rattle.cors_rules.specs.Building.{is_token};
ghost use Rattle.cors_rules.specs.Requested.{asked_method};
ghost use Rattle.cors_rules.specs.Answers.{takes_preflight, verdict, answered, by_grant, judged, refused};
ghost use Rattle.cors_rules.specs.Origins.{origin_of};
ghost use Rattle.cors_rules.specs.Fields.{vary};
ghost use Rattle.cors_answer.specs.Verdicts.{verdict_of};

use crate::preflight::answer_preflight;
use crate::refusal::CorsRefusal;
use cors_policy::{OriginRule, Policy, origin_in, vary_where};
use cors_rules::CorsError;
use http1_plain::{ErrorResponse, FieldValue, RequestHead, Response};
use std::alloc::{AllocError, Global};

/// A request is answered here, or handed on with its origin's grant.
#[derive(Drop)]
pub enum Verdict {
    /// With this response, and the inner service is not asked.
    Answered(Response),
    /// To the inner service, with the value of the grant, where there is one.
    HandedOn(Option<FieldValue>),
}

// Whether the origin is granted; a request with no `Origin` asks for no grant.
fn judge<G: OriginRule>(
    policy: &Policy<G>,
    head: &RequestHead,
    origin: Option<&[u8]>,
) -> Result<bool, CorsError>
    requires { option_copied origin ≡ origin_of (view head.now) }
    ensures { result ≡ judged G.allowed policy.now (view head.now) }
{
    match origin {
        Some(_) => policy.validate_origin_value(head, origin),
        None => Ok(false),
    }
}

// The answer to a request whose origin was refused.
pub(crate) fn blocked<G>(
    policy: &Policy<G>,
    alloc: Global,
    error: CorsError,
) -> Result<Response, AllocError>
    ensures { IfOk result (λ r. r ≡ record (refused error) { headers = vary policy.now [] }) }
{
    let mut response = CorsRefusal { error }.into_response(alloc)?;
    match vary_where(policy, response.headers_mut()) {
        Ok(()) => Ok(response),
        Err(error) => {
            drop(response);
            Err(error)
        }
    }
}

// The verdict on a request whose origin was refused.
fn refused<G>(policy: &Policy<G>, alloc: Global, error: CorsError) -> Result<Verdict, AllocError>
    ensures { IfOk result (λ v. verdict_of v ≡ answered (record (refused error) { headers = vary policy.now [] })) }
{
    Ok(Verdict::Answered(blocked(policy, alloc, error)?))
}

fn by_grant<G: OriginRule>(
    policy: &Policy<G>,
    alloc: Global,
    head: &RequestHead,
) -> Result<Verdict, AllocError>
    ensures { IfOk result (λ v. verdict_of v
        ≡ by_grant policy.now (view head.now) (judged G.allowed policy.now (view head.now))) }
{
    let origin = origin_in(head);
    match judge(policy, head, origin) {
        Err(error) => refused(policy, alloc, error),
        Ok(true) => Ok(Verdict::HandedOn(policy.grant_value(alloc, head, origin)?)),
        Ok(false) => Ok(Verdict::HandedOn(None)),
    }
}

// The method that a preflight asks for, where the policy has preflights answered here.
fn taken_method<'a, G>(policy: &Policy<G>, head: &'a RequestHead) -> Option<&'a [u8]>
    ensures asked { IfSome result (λ method. asked_method (view head.now) ≡ Some method.now) }
    ensures token { IfSome result (λ method. is_token method.now ≡ true) }
    ensures taken { is_some result ≡ takes_preflight policy.now (view head.now) }
{
    if policy.preflight {
        Policy::<G>::preflight_method(head)
    } else {
        None
    }
}

// What becomes of the request under the policy.
#[tactic(auto, unfolding(cors_rules::specs::Answers::verdict))]
pub(crate) fn decide<G: OriginRule>(
    policy: &Policy<G>,
    alloc: Global,
    head: &RequestHead,
) -> Result<Verdict, AllocError>
    ensures { IfOk result (λ v. verdict_of v ≡ verdict G.allowed policy.now (view head.now)) }
{
    match taken_method(policy, head) {
        Some(method) => Ok(Verdict::Answered(answer_preflight(policy, alloc, head, method)?)),
        None => by_grant(policy, alloc, head),
    }
}
