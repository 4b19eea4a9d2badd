//! The header fields that a policy writes.
ghost use Rattle.std.specs.Prelude.{◌≡◌, ◌++◌, codes, option_map, IfOk};
ghost use Rattle.cors_rules.specs.Fields.{add_vary, allowed_value, augment, exposed_value, field, replace, vary, vary_value, when};

use crate::headers::{Header, get, header, insert};
use crate::policy::Policy;
use crate::texts::{Texts, names_in};
use cors_rules::AllOrSome;
use service_core::Octets;
use std::alloc::{AllocError, Global};

/// The headers with the field behind them, where there is a value.
pub(crate) fn and_field(
    alloc: Global,
    mut headers: Vec<Header>,
    name: &[u8],
    value: Option<&[u8]>,
) -> Result<Vec<Header>, AllocError>
    ensures { IfOk result (λ list. list.items ≡ headers.items ++ field name.now (option_map (λ v. v.now) value.entry)) }
{
    let Some(value) = value else {
        return Ok(headers);
    };
    headers.push(header(alloc, name, value)?)?;
    Ok(headers)
}

// The headers with the field in place of those of its name, where there is a value.
fn replace(
    alloc: Global,
    headers: Vec<Header>,
    name: &[u8],
    value: Option<&[u8]>,
) -> Result<Vec<Header>, AllocError>
    ensures { IfOk result (λ list. list.items ≡ replace headers.items name.now (option_map (λ v. v.now) value.entry)) }
{
    match value {
        None => Ok(headers),
        Some(value) => insert(alloc, &headers, name, value),
    }
}

const VARY_TEXT: &[u8] = b"Origin, Access-Control-Request-Method, Access-Control-Request-Headers";

fn vary_value(alloc: Global, value: Option<&[u8]>) -> Result<Octets, AllocError>
    ensures { IfOk result (λ text. text ≡ vary_value (option_map (λ v. v.now) value.entry)) }
{
    let Some(value) = value else {
        let text = Octets::of(alloc, VARY_TEXT)?;
        return Ok(text);
    };
    let mut text = Octets::of(alloc, value)?;
    text.push_all(b", ")?;
    text.push_all(VARY_TEXT)?;
    Ok(text)
}

#[tactic(auto, unfolding(cors_rules::specs::Fields::add_vary))]
fn add_vary(alloc: Global, headers: &[Header]) -> Result<Vec<Header>, AllocError>
    ensures { IfOk result (λ list. list.items ≡ add_vary headers.now) }
{
    let value = vary_value(alloc, get(headers, b"vary"))?;
    insert(alloc, headers, b"vary", value.as_bytes())
}

/// The headers, which name what the answer depends on, unless the policy disables that.
pub(crate) fn vary(
    alloc: Global,
    policy: &Policy,
    headers: Vec<Header>,
) -> Result<Vec<Header>, AllocError>
    ensures { IfOk result (λ list. list.items ≡ vary policy.now headers.items) }
{
    if policy.vary {
        add_vary(alloc, &headers)
    } else {
        Ok(headers)
    }
}

fn exposed_value(
    alloc: Global,
    exposed: &AllOrSome<Texts>,
    headers: &[Header],
) -> Result<Option<Octets>, AllocError>
    ensures { IfOk result (λ value. value ≡ exposed_value exposed.now headers.now) }
{
    match exposed {
        AllOrSome::All => {
            let names = names_in(alloc, headers)?;
            names.joined(alloc)
        }
        AllOrSome::Some(names) => names.joined(alloc),
    }
}

/// `true`, where the flag is on.
pub(crate) fn true_where(flag: bool) -> Option<&'static [u8]>
    ensures { option_map (λ v. v.now) result ≡ when flag (codes "true") }
{
    if flag { Some(b"true") } else { None }
}

// The bytes, where there are any.
pub(crate) fn bytes_of(value: &Option<Octets>) -> Option<&[u8]>
    ensures { option_map (λ v. v.now) result ≡ value.now }
{
    match value {
        None => None,
        Some(text) => Some(text.as_bytes()),
    }
}

/// The headers of the inner service's response, with what the policy writes.
#[tactic(auto, unfolding(cors_rules::specs::Fields::augment))]
pub(crate) fn augment(
    alloc: Global,
    policy: &Policy,
    grant: &Option<Octets>,
    headers: Vec<Header>,
) -> Result<Vec<Header>, AllocError>
    ensures { IfOk result (λ list. list.items ≡ augment policy.now grant.now headers.items) }
{
    let allowed = replace(
        alloc,
        headers,
        b"access-control-allow-origin",
        bytes_of(grant),
    )?;
    let names = exposed_value(alloc, &policy.exposed, &allowed)?;
    let exposed = replace(
        alloc,
        allowed,
        b"access-control-expose-headers",
        bytes_of(&names),
    )?;
    let credited = replace(
        alloc,
        exposed,
        b"access-control-allow-credentials",
        true_where(policy.credentials),
    )?;
    vary(alloc, policy, credited)
}

/// The request headers that a preflight's answer names: the finite set, or else what was asked for.
pub(crate) fn allowed_value(
    alloc: Global,
    headers: &AllOrSome<Texts>,
    asked: Option<&[u8]>,
) -> Result<Option<Octets>, AllocError>
    ensures { IfOk result (λ value. value ≡ allowed_value headers.now (option_map (λ v. v.now) asked.entry)) }
{
    match headers {
        AllOrSome::All => copy_of(alloc, asked),
        AllOrSome::Some(names) => match names.joined(alloc)? {
            None => copy_of(alloc, asked),
            Some(text) => Ok(Some(text)),
        },
    }
}

fn copy_of(alloc: Global, value: Option<&[u8]>) -> Result<Option<Octets>, AllocError>
    ensures { IfOk result (λ copy. copy ≡ option_map (λ v. v.now) value.entry) }
{
    match value {
        None => Ok(None),
        Some(bytes) => Ok(Some(Octets::of(alloc, bytes)?)),
    }
}
