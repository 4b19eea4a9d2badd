//! Whom a policy grants.
ghost use Rattle.std.specs.Prelude.{◌≡◌, ◌&&◌, Ok, Err, IfOk, IfSome, option_copied};
ghost use Rattle.http1_plain.specs.Fields.{IsValue};
ghost use Rattle.http1_plain.specs.Views.{view};
ghost use Rattle.cors_rules.specs.Allowed.{is_all, finite_part};
ghost use Rattle.cors_rules.specs.Sets.{holds};
ghost use Rattle.std.specs.List.{list_any};
ghost use Rattle.cors_rules.specs.Origins.{grants, validate_origin, granted_value, origin_of};

use crate::policy::Policy;
use crate::rule::OriginRule;
use cors_rules::{AllOrSome, CorsError};
use cors_sets::literal;
use http_header::ORIGIN;
use http1_plain::{FieldValue, RequestHead};
use std::alloc::{AllocError, Global};

/// The request's `Origin` (RFC 6454, section 7), if it stands there: the first where there are several.
pub fn origin_in(head: &RequestHead) -> Option<&[u8]>
    ensures value { option_copied result ≡ origin_of (view head.now) }
    ensures valid { IfSome result (λ origin. IsValue origin.now) }
{
    head.headers.get(&ORIGIN)
}

/// A copy of a request's value, where there is one, or an error where memory ran out.
pub fn copied(alloc: Global, value: Option<&[u8]>) -> Result<Option<FieldValue>, AllocError>
    requires { IfSome value (λ value. IsValue value.now) }
    ensures { IfOk result (λ copy. copy ≡ option_copied value.entry) }
{
    match value {
        None => Ok(None),
        Some(value) => Ok(Some(FieldValue::of_field_bytes(alloc, value)?)),
    }
}

impl<G: OriginRule> Policy<G> {
    // Whether the finite set holds the origin.
    fn has_origin(&self, origin: &[u8]) -> bool
        ensures { result ≡ holds (finite_part self.now.origins) origin.now }
    {
        match &self.origins {
            AllOrSome::All => false,
            AllOrSome::Some(origins) => origins.contains(origin),
        }
    }

    // Whether some rule allows the origin.
    fn rule_allows(&self, head: &RequestHead, origin: &[u8]) -> bool
        ensures { result ≡ list_any (λ rule. G.allowed rule origin.now (view head.now)) self.now.rules }
    {
        self.rules.iter().any(|rule| rule.allows(origin, head))
    }

    // Whether the origin is granted.
    fn grants(&self, head: &RequestHead, origin: &[u8]) -> bool
        ensures { result ≡ grants G.allowed self.now (view head.now) origin.now }
    {
        self.has_origin(origin) || self.rule_allows(head, origin)
    }

    /// Whether the origin is granted, or why the request is refused, where the caller has looked up the request's `Origin`.
    #[tactic(auto, unfolding(cors_rules::specs::Origins::validate_origin))]
    pub fn validate_origin_value(
        &self,
        head: &RequestHead,
        origin: Option<&[u8]>,
    ) -> Result<bool, CorsError>
        requires { option_copied origin ≡ origin_of (view head.now) }
        ensures { result ≡ validate_origin G.allowed self.now (view head.now) }
    {
        if self.origins.is_all() && self.rules.is_empty() {
            return Ok(true);
        }
        match origin {
            None => Err(CorsError::MissingOrigin),
            Some(origin) => {
                if self.grants(head, origin) {
                    Ok(true)
                } else if self.block {
                    Err(CorsError::OriginNotAllowed)
                } else {
                    Ok(false)
                }
            }
        }
    }

    /// Whether the origin is granted, or why the request is refused.
    pub fn validate_origin(&self, head: &RequestHead) -> Result<bool, CorsError>
        ensures { result ≡ validate_origin G.allowed self.now (view head.now) }
    {
        self.validate_origin_value(head, origin_in(head))
    }

    // Whether a grant is written as `*`.
    fn writes_wildcard(&self) -> bool
        ensures { result ≡ (is_all self.now.origins && self.now.wildcard) }
    {
        self.origins.is_all() && self.wildcard
    }

    /// The value that a grant writes.
    pub fn access_control_allow_origin<'a>(&self, head: &'a RequestHead) -> Option<&'a [u8]>
        ensures { option_copied result ≡ granted_value self.now (view head.now) }
    {
        if self.writes_wildcard() {
            return Some(b"*");
        }
        origin_in(head)
    }

    /// The value that a grant writes, for an answer to a request with this head and this `Origin`, which is copied.
    pub fn grant_value(
        &self,
        alloc: Global,
        _head: &RequestHead,
        origin: Option<&[u8]>,
    ) -> Result<Option<FieldValue>, AllocError>
        requires same { option_copied origin ≡ origin_of (view _head.now) }
        requires valid { IfSome origin (λ origin. IsValue origin.now) }
        ensures { IfOk result (λ value. value ≡ granted_value self.now (view _head.now)) }
    {
        if self.writes_wildcard() {
            return Ok(Some(literal(alloc, "*")?));
        }
        copied(alloc, origin)
    }
}
