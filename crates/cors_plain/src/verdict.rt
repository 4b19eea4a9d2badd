//! What becomes of a request.
ghost use Rattle.std.specs.Prelude.{◌≡◌, IfOk};
ghost use Rattle.cors_rules.specs.Answers.{by_grant, handed_on, judged, verdict};
ghost use Rattle.cors_rules.specs.Origins.{granted_value};
ghost use Rattle.cors_plain.specs.Rules.{allowed_by};
ghost use Rattle.cors_plain.specs.Verdicts.{verdict_of};

use crate::fields::vary;
use crate::head::Head;
use crate::origins::{granted_value, origin_of, validate_origin};
use crate::policy::Policy;
use crate::preflights::{preflight, refused};
use crate::requested::is_preflight;
use crate::response::Response;
use cors_rules::CorsError;
use service_core::Octets;
use std::alloc::{AllocError, Global};

/// What becomes of a request: it is answered here, or handed on with the origin's grant.
#[derive(Drop)]
pub enum Verdict {
    /// Answered here.
    Answered(Response),
    /// Handed on to the inner service.
    HandedOn(Option<Octets>),
}

// A request with no `Origin` asks for no grant.
fn judged(policy: &Policy, head: &Head) -> Result<bool, CorsError>
    ensures { result ≡ judged allowed_by policy.now head.now }
{
    match origin_of(head) {
        None => Ok(false),
        Some(_) => validate_origin(policy, head),
    }
}

// A granted origin is written.
fn granted(alloc: Global, policy: &Policy, head: &Head) -> Result<Verdict, AllocError>
    ensures { IfOk result (λ found. verdict_of found ≡ handed_on (granted_value policy.now head.now)) }
{
    match granted_value(policy, head) {
        None => Ok(Verdict::HandedOn(None)),
        Some(value) => Ok(Verdict::HandedOn(Some(Octets::of(alloc, value)?))),
    }
}

// A refused request is blocked.
fn by_grant(
    alloc: Global,
    policy: &Policy,
    head: &Head,
    judged: Result<bool, CorsError>,
) -> Result<Verdict, AllocError>
    ensures { IfOk result (λ found. verdict_of found ≡ by_grant policy.now head.now judged) }
{
    match judged {
        Err(error) => {
            let mut response = refused(alloc, error)?;
            response.headers = vary(alloc, policy, Vec::new(alloc))?;
            Ok(Verdict::Answered(response))
        }
        Ok(true) => granted(alloc, policy, head),
        Ok(false) => Ok(Verdict::HandedOn(None)),
    }
}

/// What becomes of a request with the head.
#[tactic(auto, unfolding(cors_rules::specs::Answers::verdict))]
pub fn verdict_on(alloc: Global, policy: &Policy, head: &Head) -> Result<Verdict, AllocError>
    ensures { IfOk result (λ found. verdict_of found ≡ verdict allowed_by policy.now head.now) }
{
    if policy.preflight && is_preflight(head) {
        Ok(Verdict::Answered(preflight(alloc, policy, head)?))
    } else {
        by_grant(alloc, policy, head, judged(policy, head))
    }
}
