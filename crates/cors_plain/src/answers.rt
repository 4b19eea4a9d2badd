//! The whole answer.
ghost use Rattle.std.specs.Prelude.{◌≡◌, IfOk};
ghost use Rattle.http1_grammar.specs.Answers.{Request};
ghost use Rattle.http1_grammar.specs.Wire.{Response as Parts};
ghost use Rattle.service_core.specs.declared.peer.Peer.{Peer};
ghost use Rattle.cors_rules.specs.Answers.{augmented, by_verdict, cors, verdict};
ghost use Rattle.cors_plain.specs.Rules.{allowed_by};

use crate::fields::augment;
use crate::head::Head;
use crate::policy::Policy;
use crate::response::Response;
use crate::verdict::{Verdict, verdict_on};
use service_core::Octets;
use std::alloc::{AllocError, Global};

/// The inner service's response, with what the policy writes.
pub fn augmented(
    alloc: Global,
    policy: &Policy,
    grant: &Option<Octets>,
    inner: Response,
) -> Result<Response, AllocError>
    ensures { IfOk result (λ response. response ≡ augmented policy.now grant.now inner) }
{
    let Response {
        status,
        headers,
        body,
    } = inner;
    let headers = augment(alloc, policy, grant, headers)?;
    Ok(Response {
        status,
        headers,
        body,
    })
}

/// The answer to a request with the head, where the inner service gives this response.
pub fn answer(
    alloc: Global,
    policy: &Policy,
    head: &Head,
    inner: Response,
) -> Result<Response, AllocError>
    ensures by_verdict { IfOk result (λ response. response ≡ by_verdict policy.now inner (verdict allowed_by policy.now head.now)) }
    ensures cors { IfOk result (λ response. (handler : Request Peer → Parts) (request : Request Peer) → request.head ≡ head.now
        → handler request ≡ inner → response ≡ cors allowed_by policy.now handler request) }
{
    match verdict_on(alloc, policy, head)? {
        Verdict::Answered(response) => Ok(response),
        Verdict::HandedOn(grant) => augmented(alloc, policy, &grant, inner),
    }
}
