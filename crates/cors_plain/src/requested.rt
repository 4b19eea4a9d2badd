//! What a preflight asks for (Fetch Standard, "CORS-preflight fetch").
ghost use Rattle.std.specs.Prelude.{◌≡◌, map, option_map, IfOk, false};
ghost use Rattle.std.specs.List.{list_all};
ghost use Rattle.std.specs.Option.{option_map_or};
ghost use Rattle.cors_rules.specs.Building.{is_token};
ghost use Rattle.cors_rules.specs.Requested.{asked_headers, asked_method, holds_item, is_item_name, is_preflight, validate_allowed_headers, validate_allowed_method, validate_items, validate_value};

use crate::bytes::{are_visible_or_blank, is_header_name, is_token, items, lowercase, trim_ows};
use crate::head::Head;
use crate::headers::get;
use crate::policy::Policy;
use crate::texts::Texts;
use cors_rules::{AllOrSome, CorsError};
use std::alloc::{AllocError, Global};

/// Ok, or why a preflight is refused.
pub(crate) type Check = Result<(), CorsError>;

fn asked_method(head: &Head) -> Option<&[u8]>
    ensures { option_map (λ method. method.now) result ≡ asked_method head.now }
{
    get(head.headers(), b"access-control-request-method")
}

/// The headers that the request will have.
pub(crate) fn asked_headers(head: &Head) -> Option<&[u8]>
    ensures { option_map (λ names. names.now) result ≡ asked_headers head.now }
{
    get(head.headers(), b"access-control-request-headers")
}

fn asks_for_token(head: &Head) -> bool
    ensures { result ≡ option_map_or is_token (asked_method head.now) false }
{
    match asked_method(head) {
        Some(method) => is_token(method),
        None => false,
    }
}

/// Whether a request is a preflight: OPTIONS, with a method that is a token.
#[tactic(auto, unfolding(cors_rules::specs::Requested::is_preflight))]
pub fn is_preflight(head: &Head) -> bool
    ensures { result ≡ is_preflight head.now }
{
    head.method() == b"OPTIONS".as_slice() && asks_for_token(head)
}

/// Whether the method that a preflight asks for is allowed.
#[tactic(auto, unfolding(cors_rules::specs::Requested::validate_allowed_method))]
pub(crate) fn validate_allowed_method(policy: &Policy, head: &Head) -> Check
    ensures { result ≡ validate_allowed_method policy.now head.now }
{
    let Some(method) = asked_method(head) else {
        return Err(CorsError::MissingRequestMethod);
    };
    if !is_token(method) {
        Err(CorsError::BadRequestMethod)
    } else if policy.methods.holds(method) {
        Ok(())
    } else {
        Err(CorsError::MethodNotAllowed)
    }
}

// Whether the item is the name of a header.
#[tactic(auto, unfolding(cors_rules::specs::Requested::is_item_name))]
fn is_item_name(alloc: Global, item: &[u8]) -> Result<bool, AllocError>
    ensures { IfOk result (λ found. found ≡ is_item_name item.now) }
{
    let name = trim_ows(alloc, item)?;
    Ok(is_header_name(name.as_bytes()))
}

// Whether the item's name, in lower case, is a member.
#[tactic(auto, unfolding(cors_rules::specs::Requested::holds_item))]
fn holds_item(alloc: Global, allowed: &Texts, item: &[u8]) -> Result<bool, AllocError>
    ensures { IfOk result (λ found. found ≡ holds_item allowed.now item.now) }
{
    let name = trim_ows(alloc, item)?;
    let lower = lowercase(alloc, name.as_bytes())?;
    Ok(allowed.holds(lower.as_bytes()))
}

fn are_names(alloc: Global, items: &[&[u8]]) -> Result<bool, AllocError>
    ensures { IfOk result (λ found. found ≡ list_all is_item_name (map (λ item. item.now) items.now)) }
{
    match items {
        [] => Ok(true),
        [item, rest @ ..] => {
            if !is_item_name(alloc, item)? {
                return Ok(false);
            }
            are_names(alloc, rest)
        }
    }
}

fn are_allowed(alloc: Global, allowed: &Texts, items: &[&[u8]]) -> Result<bool, AllocError>
    ensures { IfOk result (λ found. found ≡ list_all (holds_item allowed.now) (map (λ item. item.now) items.now)) }
{
    match items {
        [] => Ok(true),
        [item, rest @ ..] => {
            if !holds_item(alloc, allowed, item)? {
                return Ok(false);
            }
            are_allowed(alloc, allowed, rest)
        }
    }
}

fn validate_items(alloc: Global, allowed: &Texts, items: &[&[u8]]) -> Result<Check, AllocError>
    ensures { IfOk result (λ check. check ≡ validate_items allowed.now (map (λ item. item.now) items.now)) }
{
    if !are_names(alloc, items)? {
        return Ok(Err(CorsError::BadRequestHeaders));
    }
    if are_allowed(alloc, allowed, items)? {
        Ok(Ok(()))
    } else {
        Ok(Err(CorsError::HeadersNotAllowed))
    }
}

fn validate_value(alloc: Global, allowed: &Texts, value: &[u8]) -> Result<Check, AllocError>
    ensures { IfOk result (λ check. check ≡ validate_value allowed.now value.now) }
{
    if !are_visible_or_blank(value) {
        return Ok(Err(CorsError::BadRequestHeaders));
    }
    let found = items(alloc, value)?;
    validate_items(alloc, allowed, &found)
}

/// Whether the headers that a preflight asks for are allowed.
#[tactic(auto, unfolding(cors_rules::specs::Requested::validate_allowed_headers))]
pub(crate) fn validate_allowed_headers(
    alloc: Global,
    policy: &Policy,
    head: &Head,
) -> Result<Check, AllocError>
    ensures { IfOk result (λ check. check ≡ validate_allowed_headers policy.now head.now) }
{
    let AllOrSome::Some(allowed) = &policy.headers else {
        return Ok(Ok(()));
    };
    match asked_headers(head) {
        None => Ok(Ok(())),
        Some(value) => validate_value(alloc, allowed, value),
    }
}
