//! Classes of bytes, and texts made of others.
ghost use Rattle.std.specs.Prelude.{◌≡◌, ◌==◌, codes, reverse, map, IfOk};
ghost use Rattle.std.specs.List.{list_all, list_any};
ghost use Rattle.http_header.specs.Token.{is_token_byte, is_visible_or_blank, lowercase};
ghost use Rattle.httparse.specs.Grammar.{skip_ows, trim_ows};
ghost use Rattle.cors_rules.specs.Building.{is_header_name, is_token};
ghost use Rattle.cors_rules.specs.Requested.{items};

use service_core::Octets;
use std::alloc::{AllocError, Global};

fn is_token_mark(b: u8) -> bool
    ensures { result ≡ list_any (λ c. c == b) (codes "!#$%&'*+-.^_`|~") }
{
    b"!#$%&'*+-.^_`|~".iter().any(|c| *c == b)
}

#[tactic(auto, unfolding(http_header::specs::Token::is_token_byte))]
fn is_token_byte(b: u8) -> bool
    ensures { result ≡ is_token_byte b }
{
    b.is_ascii_alphanumeric() || is_token_mark(b)
}

fn are_token_bytes(bytes: &[u8]) -> bool
    ensures { result ≡ list_all is_token_byte bytes.now }
{
    bytes.iter().all(|b| is_token_byte(*b))
}

/// A method or the name of a header: one or more letters, digits and marks.
pub(crate) fn is_token(bytes: &[u8]) -> bool
    ensures { result ≡ is_token bytes.now }
{
    bytes.len() > 0 && are_token_bytes(bytes)
}

/// The name of a header, in any case.
pub(crate) fn is_header_name(bytes: &[u8]) -> bool
    ensures { result ≡ is_header_name bytes.now }
{
    is_token(bytes) && bytes.len() <= 65535
}

/// Whether each byte is visible ASCII, a space or a tab.
pub(crate) fn are_visible_or_blank(bytes: &[u8]) -> bool
    ensures { result ≡ list_all is_visible_or_blank bytes.now }
{
    bytes
        .iter()
        .all(|b| *b == b'\t' || (*b >= b' ' && *b < 127))
}

/// The bytes with each letter in lower case.
pub(crate) fn lowercase(alloc: Global, bytes: &[u8]) -> Result<Octets, AllocError>
    ensures { IfOk result (λ lower. lower ≡ lowercase bytes.now) }
{
    let lower: Vec<u8> = bytes.iter().map(|b| b.to_ascii_lowercase()).collect(alloc)?;
    Ok(Octets::from_vec(lower))
}

fn skip_ows(bytes: &[u8]) -> &[u8]
    ensures { result.now ≡ skip_ows bytes.now }
{
    match bytes {
        [b' ' | b'\t', rest @ ..] => skip_ows(rest),
        _ => bytes,
    }
}

fn reversed(alloc: Global, bytes: &[u8]) -> Result<Octets, AllocError>
    ensures { IfOk result (λ back. back ≡ reverse bytes.now) }
{
    let back: Vec<u8> = bytes.iter().rev().copied().collect(alloc)?;
    Ok(Octets::from_vec(back))
}

/// The bytes without the spaces and tabs at both ends.
#[tactic(auto, unfolding(httparse::specs::Grammar::trim_ows))]
pub(crate) fn trim_ows(alloc: Global, bytes: &[u8]) -> Result<Octets, AllocError>
    ensures { IfOk result (λ value. value ≡ trim_ows bytes.now) }
{
    let back = reversed(alloc, skip_ows(bytes))?;
    reversed(alloc, skip_ows(back.as_bytes()))
}

/// The items between commas, with the white space around them.
pub(crate) fn items(alloc: Global, value: &[u8]) -> Result<Vec<&[u8]>, AllocError>
    ensures { IfOk result (λ found. map (λ item. item.now) found.items ≡ items value.now) }
{
    value.split(|b| *b == b',').collect(alloc)
}
