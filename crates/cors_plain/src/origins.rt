//! Whether the policy grants a request its origin (Fetch Standard, "CORS check").
ghost use Rattle.std.specs.Prelude.{◌≡◌, option_map};
ghost use Rattle.std.specs.List.{list_any};
ghost use Rattle.cors_rules.specs.Allowed.{finite_part};
ghost use Rattle.cors_rules.specs.Sets.{holds};
ghost use Rattle.cors_rules.specs.Origins.{granted_value, grants, grants_everyone, origin_of, validate_origin};
ghost use Rattle.cors_plain.specs.Rules.{allowed_by};

use crate::head::Head;
use crate::headers::get;
use crate::policy::Policy;
use cors_rules::{AllOrSome, CorsError};

/// The first `Origin`.
pub(crate) fn origin_of(head: &Head) -> Option<&[u8]>
    ensures { option_map (λ origin. origin.now) result ≡ origin_of head.now }
{
    get(head.headers(), b"origin")
}

fn is_member(policy: &Policy, origin: &[u8]) -> bool
    ensures { result ≡ holds (finite_part policy.now.origins) origin.now }
{
    match &policy.origins {
        AllOrSome::All => false,
        AllOrSome::Some(origins) => origins.holds(origin),
    }
}

fn is_allowed_by_rule(policy: &Policy, head: &Head, origin: &[u8]) -> bool
    ensures { result ≡ list_any (λ rule. allowed_by rule origin.now head.now) policy.now.rules }
{
    policy.rules.iter().any(|rule| rule.allows(origin, head))
}

fn grants(policy: &Policy, head: &Head, origin: &[u8]) -> bool
    ensures { result ≡ grants allowed_by policy.now head.now origin.now }
{
    is_member(policy, origin) || is_allowed_by_rule(policy, head, origin)
}

fn grants_everyone(policy: &Policy) -> bool
    ensures { result ≡ grants_everyone policy.now }
{
    policy.origins.is_all() && policy.rules.is_empty()
}

/// Whether the origin is granted, or why the request is refused.
#[tactic(auto, unfolding(cors_rules::specs::Origins::validate_origin))]
pub fn validate_origin(policy: &Policy, head: &Head) -> Result<bool, CorsError>
    ensures { result ≡ validate_origin allowed_by policy.now head.now }
{
    if grants_everyone(policy) {
        return Ok(true);
    }
    let Some(origin) = origin_of(head) else {
        return Err(CorsError::MissingOrigin);
    };
    if grants(policy, head, origin) {
        Ok(true)
    } else if policy.block {
        Err(CorsError::OriginNotAllowed)
    } else {
        Ok(false)
    }
}

/// The value that a grant writes.
pub(crate) fn granted_value<'a>(policy: &Policy, head: &'a Head) -> Option<&'a [u8]>
    ensures { option_map (λ value. value.now) result ≡ granted_value policy.now head.now }
{
    if policy.origins.is_all() && policy.wildcard {
        Some(b"*")
    } else {
        origin_of(head)
    }
}
