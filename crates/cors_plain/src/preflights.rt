//! The answer to a preflight (Fetch Standard, "CORS protocol").
ghost use Rattle.std.specs.Prelude.{◌≡◌, decimal, option_map, IfOk};
ghost use Rattle.cors_rules.specs.Answers.{preflight, preflight_check, preflight_headers, refused};
ghost use Rattle.cors_plain.specs.Rules.{allowed_by};

use crate::fields::{allowed_value, and_field, bytes_of, true_where, vary};
use crate::head::Head;
use crate::headers::Header;
use crate::origins::{granted_value, validate_origin};
use crate::policy::Policy;
use crate::requested::{Check, asked_headers, validate_allowed_headers, validate_allowed_method};
use crate::response::Response;
use cors_rules::CorsError;
use service_core::Octets;
use std::alloc::{AllocError, Global};

/// 400, with the error's text.
pub(crate) fn refused(alloc: Global, error: CorsError) -> Result<Response, AllocError>
    ensures { IfOk result (λ response. response ≡ refused error) }
{
    Ok(Response {
        status: 400,
        headers: Vec::new(alloc),
        body: Octets::of(alloc, error.text().as_bytes())?,
    })
}

// Origin, method and headers of a preflight, in this order.
fn preflight_check(alloc: Global, policy: &Policy, head: &Head) -> Result<Check, AllocError>
    ensures { IfOk result (λ check. check ≡ preflight_check allowed_by policy.now head.now) }
{
    match validate_origin(policy, head) {
        Err(error) => Ok(Err(error)),
        Ok(false) => Ok(Err(CorsError::OriginNotAllowed)),
        Ok(true) => match validate_allowed_method(policy, head) {
            Err(error) => Ok(Err(error)),
            Ok(()) => validate_allowed_headers(alloc, policy, head),
        },
    }
}

fn decimal_of(alloc: Global, number: Option<u64>) -> Result<Option<Octets>, AllocError>
    ensures { IfOk result (λ text. text ≡ option_map decimal number) }
{
    let Some(number) = number else {
        return Ok(None);
    };
    let text = format!(in alloc; "{number}")?;
    Ok(Some(Octets::of(alloc, text.as_bytes())?))
}

// The headers of a preflight's answer.
#[tactic(auto, unfolding(cors_rules::specs::Answers::preflight_headers))]
fn preflight_headers(alloc: Global, policy: &Policy, head: &Head) -> Result<Vec<Header>, AllocError>
    ensures { IfOk result (λ list. list.items ≡ preflight_headers policy.now head.now) }
{
    let none = Vec::new(alloc);
    let granted = granted_value(policy, head);
    let list = and_field(alloc, none, b"access-control-allow-origin", granted)?;
    let methods = policy.methods.joined(alloc)?;
    let list = and_field(
        alloc,
        list,
        b"access-control-allow-methods",
        bytes_of(&methods),
    )?;
    let names = allowed_value(alloc, &policy.headers, asked_headers(head))?;
    let list = and_field(
        alloc,
        list,
        b"access-control-allow-headers",
        bytes_of(&names),
    )?;
    let credentials = true_where(policy.credentials);
    let list = and_field(
        alloc,
        list,
        b"access-control-allow-credentials",
        credentials,
    )?;
    let age = decimal_of(alloc, policy.max_age)?;
    and_field(alloc, list, b"access-control-max-age", bytes_of(&age))
}

/// The answer to a preflight.
pub fn preflight(alloc: Global, policy: &Policy, head: &Head) -> Result<Response, AllocError>
    ensures { IfOk result (λ response. response ≡ preflight allowed_by policy.now head.now) }
{
    match preflight_check(alloc, policy, head)? {
        Err(error) => refused(alloc, error),
        Ok(()) => {
            let headers = preflight_headers(alloc, policy, head)?;
            let headers = vary(alloc, policy, headers)?;
            Ok(Response {
                status: 200,
                headers,
                body: Octets::new(alloc),
            })
        }
    }
}
