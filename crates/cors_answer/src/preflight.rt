//! The answer to a preflight (Fetch Standard, "CORS protocol").
ghost use Rattle.std.specs.Prelude.{◌≡◌, ◌++◌, [], true, Some, IfOk, IfSome, OnOk, codes, option_copied, decimal, option_map};
ghost use Rattle.http1_plain.specs.Fields.{IsValue};
ghost use Rattle.http1_plain.specs.Views.{view};
ghost use Rattle.cors_rules.specs.Sets.{joined_some};
ghost use Rattle.cors_rules.specs.Origins.{granted_value};
ghost use Rattle.cors_rules.specs.Building.{is_token};
ghost use Rattle.cors_rules.specs.Requested.{asked_method, validate_method, validate_headers};
ghost use Rattle.cors_rules.specs.Fields.{allowed_value, field, vary, when};
ghost use Rattle.cors_answer.specs.Asking.{IsAsked};
ghost use Rattle.cors_rules.specs.Answers.{and_then, preflight_check, preflight_headers, preflight};

use crate::asked::Asked;
use crate::refusal::CorsRefusal;
use cors_policy::{
    OriginRule, Policy, asked_headers_in, copied, origin_in, push_field, true_where, vary_where,
};
use cors_rules::{AllOrSome, CorsError};
use cors_sets::{TextSet, number_value};
use http_header::{
    ACCESS_CONTROL_ALLOW_CREDENTIALS, ACCESS_CONTROL_ALLOW_HEADERS, ACCESS_CONTROL_ALLOW_METHODS,
    ACCESS_CONTROL_ALLOW_ORIGIN, ACCESS_CONTROL_MAX_AGE,
};
use http1_plain::{ErrorResponse, FieldValue, HeaderList, RequestHead, Response};
use std::alloc::{AllocError, Global};

// How many fields an answer to a preflight has at most.
const MOST_FIELDS: usize = 6;

// Method and headers of a preflight, in this order.
fn check_asked<G: OriginRule>(
    policy: &Policy<G>,
    method: &[u8],
    headers: Option<&[u8]>,
) -> Result<(), CorsError>
    requires { is_token method.now ≡ true }
    ensures { result ≡ and_then (validate_method policy.now.methods (Some method.now)) (validate_headers policy.now.headers (option_copied headers.entry)) }
{
    match policy.validate_allowed_method_value(method) {
        Err(error) => Err(error),
        Ok(()) => policy.validate_allowed_headers_value(headers),
    }
}

// Origin, method and headers of a preflight, in this order.
#[tactic(auto, unfolding(cors_rules::specs::Requested::validate_allowed_method, cors_rules::specs::Requested::validate_allowed_headers))]
fn check_preflight<G: OriginRule>(
    policy: &Policy<G>,
    head: &RequestHead,
    asked: Asked<'_>,
) -> Result<(), CorsError>
    requires { IsAsked (view head.now) asked }
    ensures { result ≡ preflight_check G.allowed policy.now (view head.now) }
{
    match policy.validate_origin_value(head, asked.origin) {
        Err(error) => Err(error),
        Ok(false) => Err(CorsError::OriginNotAllowed),
        Ok(true) => check_asked(policy, asked.method, asked.headers),
    }
}

// The request headers that the answer names: the finite set, or else what was asked for.
fn allowed_value(
    names: &AllOrSome<TextSet>,
    alloc: Global,
    asked: Option<&[u8]>,
) -> Result<Option<FieldValue>, AllocError>
    requires { IfSome asked (λ names. IsValue names.now) }
    ensures { IfOk result (λ value. value ≡ allowed_value names.now (option_copied asked.entry)) }
{
    match names {
        AllOrSome::All => copied(alloc, asked),
        AllOrSome::Some(names) => {
            if names.is_empty() {
                copied(alloc, asked)
            } else {
                names.joined_some(alloc)
            }
        }
    }
}

// How long the answer may be kept.
fn age_value(alloc: Global, max_age: Option<u64>) -> Result<Option<FieldValue>, AllocError>
    ensures { IfOk result (λ value. value ≡ option_map decimal max_age) }
{
    match max_age {
        None => Ok(None),
        Some(seconds) => Ok(Some(number_value(alloc, seconds)?)),
    }
}

// Appends the origin that is granted.
fn push_origin<G: OriginRule>(
    policy: &Policy<G>,
    alloc: Global,
    head: &RequestHead,
    asked: Asked<'_>,
    headers: &mut HeaderList,
) -> Result<(), AllocError>
    requires { IsAsked (view head.now) asked }
    ensures { OnOk result (headers.new ≡ headers.old ++ field (codes "access-control-allow-origin") (granted_value policy.now (view head.now))) }
{
    let origin = policy.grant_value(alloc, head, asked.origin)?;
    push_field(headers, ACCESS_CONTROL_ALLOW_ORIGIN, origin)
}

// Appends the methods that are allowed.
fn push_methods<G: OriginRule>(
    policy: &Policy<G>,
    alloc: Global,
    headers: &mut HeaderList,
) -> Result<(), AllocError>
    ensures { OnOk result (headers.new ≡ headers.old ++ field (codes "access-control-allow-methods") (joined_some policy.now.methods)) }
{
    let methods = policy.methods.joined_some(alloc)?;
    push_field(headers, ACCESS_CONTROL_ALLOW_METHODS, methods)
}

// Appends the names of request headers that are allowed.
fn push_names<G: OriginRule>(
    policy: &Policy<G>,
    alloc: Global,
    asked: Option<&[u8]>,
    headers: &mut HeaderList,
) -> Result<(), AllocError>
    requires { IfSome asked (λ names. IsValue names.now) }
    ensures { OnOk result (headers.new ≡ headers.old ++ field (codes "access-control-allow-headers") (allowed_value policy.now.headers (option_copied asked.entry))) }
{
    let names = allowed_value(&policy.headers, alloc, asked)?;
    push_field(headers, ACCESS_CONTROL_ALLOW_HEADERS, names)
}

// Appends whether credentials may be sent.
fn push_credentials(
    alloc: Global,
    credentials: bool,
    headers: &mut HeaderList,
) -> Result<(), AllocError>
    ensures { OnOk result (headers.new ≡ headers.old ++ field (codes "access-control-allow-credentials") (when credentials (codes "true"))) }
{
    let credentials = true_where(alloc, credentials)?;
    push_field(headers, ACCESS_CONTROL_ALLOW_CREDENTIALS, credentials)
}

// Appends how long the answer may be kept.
fn push_age(alloc: Global, max_age: Option<u64>, headers: &mut HeaderList) -> Result<(), AllocError>
    ensures { OnOk result (headers.new ≡ headers.old ++ field (codes "access-control-max-age") (option_map decimal max_age)) }
{
    let age = age_value(alloc, max_age)?;
    push_field(headers, ACCESS_CONTROL_MAX_AGE, age)
}

// Appends whether credentials may be sent, and how long the answer may be kept.
#[tactic(auto, using(std::proofs::Common::append_assoc))]
fn push_flags<G: OriginRule>(
    policy: &Policy<G>,
    alloc: Global,
    headers: &mut HeaderList,
) -> Result<(), AllocError>
    ensures { OnOk result (headers.new ≡ headers.old ++ (field (codes "access-control-allow-credentials") (when policy.now.credentials (codes "true")) ++ field (codes "access-control-max-age") (option_map decimal policy.now.max_age))) }
{
    push_credentials(alloc, policy.credentials, headers)?;
    push_age(alloc, policy.max_age, headers)
}

// Appends the headers of the answer, in their order.
#[tactic(auto, using(std::proofs::Common::append_assoc), unfolding(cors_rules::specs::Answers::preflight_headers))]
fn push_headers<G: OriginRule>(
    policy: &Policy<G>,
    alloc: Global,
    head: &RequestHead,
    asked: Asked<'_>,
    headers: &mut HeaderList,
) -> Result<(), AllocError>
    requires { IsAsked (view head.now) asked }
    ensures { OnOk result (headers.new ≡ headers.old ++ preflight_headers policy.now (view head.now)) }
{
    push_origin(policy, alloc, head, asked, headers)?;
    push_methods(policy, alloc, headers)?;
    push_names(policy, alloc, asked.headers, headers)?;
    push_flags(policy, alloc, headers)
}

// Writes the headers of the answer, and what it depends on.
fn write_headers<G: OriginRule>(
    policy: &Policy<G>,
    alloc: Global,
    head: &RequestHead,
    asked: Asked<'_>,
    headers: &mut HeaderList,
) -> Result<(), AllocError>
    requires { IsAsked (view head.now) asked }
    ensures { OnOk result (headers.new ≡ vary policy.now (headers.old ++ preflight_headers policy.now (view head.now))) }
{
    push_headers(policy, alloc, head, asked, headers)?;
    vary_where(policy, headers)
}

// A response with these headers.
fn response_of(alloc: Global, headers: HeaderList) -> Response
    ensures { result ≡ record { status = 200; headers = headers; body = [] } }
{
    let mut response = Response::new(alloc, 200);
    response.set_headers(headers);
    response
}

// The answer where the check passed.
fn passed_preflight<G: OriginRule>(
    policy: &Policy<G>,
    alloc: Global,
    head: &RequestHead,
    asked: Asked<'_>,
) -> Result<Response, AllocError>
    requires { IsAsked (view head.now) asked }
    ensures { IfOk result (λ r. r ≡ record { status = 200; headers = vary policy.now (preflight_headers policy.now (view head.now)); body = [] }) }
{
    let mut headers = HeaderList::with_capacity(alloc, MOST_FIELDS)?;
    match write_headers(policy, alloc, head, asked, &mut headers) {
        Ok(()) => Ok(response_of(alloc, headers)),
        Err(error) => {
            drop(headers);
            Err(error)
        }
    }
}

// The answer to a preflight, by what it asks for.
fn answer_asked<G: OriginRule>(
    policy: &Policy<G>,
    alloc: Global,
    head: &RequestHead,
    asked: Asked<'_>,
) -> Result<Response, AllocError>
    requires { IsAsked (view head.now) asked }
    ensures { IfOk result (λ r. r ≡ preflight G.allowed policy.now (view head.now)) }
{
    match check_preflight(policy, head, asked) {
        Err(error) => CorsRefusal { error }.into_response(alloc),
        Ok(()) => passed_preflight(policy, alloc, head, asked),
    }
}

// The answer to a preflight for the method.
pub(crate) fn answer_preflight<G: OriginRule>(
    policy: &Policy<G>,
    alloc: Global,
    head: &RequestHead,
    method: &[u8],
) -> Result<Response, AllocError>
    requires asked { asked_method (view head.now) ≡ Some method.now }
    requires token { is_token method.now ≡ true }
    ensures { IfOk result (λ r. r ≡ preflight G.allowed policy.now (view head.now)) }
{
    let asked = Asked {
        origin: origin_in(head),
        method,
        headers: asked_headers_in(head),
    };
    answer_asked(policy, alloc, head, asked)
}
