//! What a head asks of the connection.
ghost use Rattle.std.specs.Prelude.{◌≡◌, ◌==◌, bytes_eq, codes, map, true, IfOk};
ghost use Rattle.std.specs.List.{list_any, slice_split};
ghost use Rattle.http_header.specs.Token.{lowercase};
ghost use Rattle.httparse.specs.Ascii.{comma};
ghost use Rattle.httparse.specs.Grammar.{trim_ows};
ghost use Rattle.http1_grammar.specs.Tokens.{closes, connection_options, expects, names_token};

use crate::framing::named;
use crate::head::{Head, Header};
use crate::request_text::{lowercase, trim_ows};
use service_core::Octets;
use std::alloc::{AllocError, Global};

// What stands between the commas.
fn parts(alloc: Global, value: &[u8]) -> Result<Vec<&[u8]>, AllocError>
    ensures { IfOk result (λ found. map (λ part. part.now) found.items ≡ slice_split (λ b. b == comma) value.now) }
{
    value.split(|b| *b == b',').collect(alloc)
}

// The part in lower case, without the white space around it.
fn option_of(alloc: Global, part: &[u8]) -> Result<Octets, AllocError>
    ensures { IfOk result (λ option. option ≡ lowercase (trim_ows part.now)) }
{
    let option = trim_ows(alloc, part)?;
    lowercase(alloc, option.as_bytes())
}

// Whether a part is the token, which is in lower case.
fn some_part_is(alloc: Global, parts: &[&[u8]], token: &[u8]) -> Result<bool, AllocError>
    ensures { IfOk result (λ found. found
        ≡ list_any (bytes_eq token.now) (map (λ part. lowercase (trim_ows part.now)) parts.now)) }
{
    match parts {
        [] => Ok(false),
        [part, rest @ ..] => {
            let option = option_of(alloc, part)?;
            if token == option.as_bytes() {
                Ok(true)
            } else {
                some_part_is(alloc, rest, token)
            }
        }
    }
}

// Whether the value lists the token, which is in lower case.
fn lists(alloc: Global, value: &[u8], token: &[u8]) -> Result<bool, AllocError>
    ensures { IfOk result (λ found. found ≡ list_any (bytes_eq token.now) (connection_options value.now)) }
{
    let parts = parts(alloc, value)?;
    some_part_is(alloc, &parts, token)
}

// Whether one of the values lists the token, which is in lower case.
fn some_lists(alloc: Global, fields: &[&Header], token: &[u8]) -> Result<bool, AllocError>
    ensures { IfOk result (λ found. found
        ≡ list_any (λ value. list_any (bytes_eq token.now) (connection_options value))
        (map (λ field. field.now.1) fields.now)) }
{
    match fields {
        [] => Ok(false),
        [field, rest @ ..] => {
            if lists(alloc, field.1.as_bytes(), token)? {
                Ok(true)
            } else {
                some_lists(alloc, rest, token)
            }
        }
    }
}

// Whether some `Connection` field lists the token, which is in lower case.
fn names_token(alloc: Global, head: &Head, token: &[u8]) -> Result<bool, AllocError>
    ensures { IfOk result (λ found. found ≡ names_token head.now token.now) }
{
    let fields = named(alloc, head.headers(), b"connection")?;
    some_lists(alloc, &fields, token)
}

/// Whether the connection, which is kept alive, closes after the response.
pub(crate) fn closes(alloc: Global, head: &Head) -> Result<bool, AllocError>
    ensures { IfOk result (λ found. found ≡ closes true head.now) }
{
    let asks = names_token(alloc, head, b"close")?;
    if head.minor() == 1 {
        return Ok(asks);
    }
    let stays = names_token(alloc, head, b"keep-alive")?;
    Ok(asks || !stays)
}

fn is_expectation(field: &Header) -> bool
    ensures { result ≡ bytes_eq (lowercase field.now.1) (codes "100-continue") }
{
    field.1.as_bytes().eq_ignore_ascii_case(b"100-continue")
}

fn some_expects(fields: &[&Header]) -> bool
    ensures { result ≡ list_any (λ value. bytes_eq (lowercase value) (codes "100-continue"))
        (map (λ field. field.now.1) fields.now) }
{
    match fields {
        [] => false,
        [field, rest @ ..] => is_expectation(field) || some_expects(rest),
    }
}

/// Whether the head waits for `100 Continue`.
pub(crate) fn expects(alloc: Global, head: &Head) -> Result<bool, AllocError>
    ensures { IfOk result (λ found. found ≡ expects head.now) }
{
    if head.minor() != 1 {
        return Ok(false);
    }
    let fields = named(alloc, head.headers(), b"expect")?;
    Ok(some_expects(&fields))
}
