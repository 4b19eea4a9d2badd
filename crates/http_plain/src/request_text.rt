//! The text of a request head, line by line.
ghost use Rattle.std.specs.Prelude.{◌≡◌, [], map, reverse, option_map, codes, ◌==◌, IfOk};
ghost use Rattle.std.specs.List.{list_all, list_any};
ghost use Rattle.std.specs.Str.{is_utf8};
ghost use Rattle.http_header.specs.Token.{lowercase};
ghost use Rattle.httparse.specs.Grammar.{is_token, is_token_byte, is_uri_byte, is_value_byte, skip_ows, trim_ows};
ghost use Rattle.http1_grammar.specs.Head.{head_of, header_of};
ghost use Rattle.http1_grammar.specs.RequestText.{field_of, is_target, minor_of, request_head, request_head_of, request_line_of, section_of};
ghost use Rattle.http_plain.specs.HandedOn.{begun_head, headers_of};

use crate::head::{Head, Header};
use crate::lines::{cut_at, line_text, lines};
use service_core::Octets;
use std::alloc::{AllocError, Global};

#[tactic(auto, unfolding(httparse::specs::Grammar::is_token_byte))]
fn is_token_byte(b: u8) -> bool
    ensures { result ≡ is_token_byte b }
{
    b.is_ascii_alphanumeric() || is_token_mark(b)
}

fn is_token_mark(b: u8) -> bool
    ensures { result ≡ list_any (λ c. c == b) (codes "!#$%&'*+-.^_`|~") }
{
    b"!#$%&'*+-.^_`|~".iter().any(|c| *c == b)
}

fn are_token_bytes(bytes: &[u8]) -> bool
    ensures { result ≡ list_all is_token_byte bytes.now }
{
    bytes.iter().all(|b| is_token_byte(*b))
}

fn is_token(bytes: &[u8]) -> bool
    ensures { result ≡ is_token bytes.now }
{
    bytes.len() > 0 && are_token_bytes(bytes)
}

fn are_uri_bytes(bytes: &[u8]) -> bool
    ensures { result ≡ list_all is_uri_byte bytes.now }
{
    bytes.iter().all(|b| *b > b' ' && *b != 0x7f)
}

fn is_value_byte(b: u8) -> bool
    ensures { result ≡ is_value_byte b }
{
    b == b'\t' || (b >= b' ' && b != 0x7f)
}

fn are_value_bytes(bytes: &[u8]) -> bool
    ensures { result ≡ list_all is_value_byte bytes.now }
{
    bytes.iter().all(|b| is_value_byte(*b))
}

fn is_utf8(bytes: &[u8]) -> bool
    ensures { result ≡ is_utf8 bytes.now }
{
    match std::str::from_utf8(bytes) {
        Ok(_) => true,
        Err(_) => false,
    }
}

fn is_target(target: &[u8]) -> bool
    ensures { result ≡ is_target target.now }
{
    target.len() > 0 && are_uri_bytes(target) && is_utf8(target)
}

/// The bytes with each letter in lower case.
pub(crate) fn lowercase(alloc: Global, bytes: &[u8]) -> Result<Octets, AllocError>
    ensures { IfOk result (λ lower. lower ≡ lowercase bytes.now) }
{
    let lower: Vec<u8> = bytes.iter().map(|b| b.to_ascii_lowercase()).collect(alloc)?;
    Ok(Octets::from_vec(lower))
}

fn skip_ows(bytes: &[u8]) -> &[u8]
    ensures { result.now ≡ skip_ows bytes.now }
{
    match bytes {
        [b' ' | b'\t', rest @ ..] => skip_ows(rest),
        _ => bytes,
    }
}

fn reversed(alloc: Global, bytes: &[u8]) -> Result<Octets, AllocError>
    ensures { IfOk result (λ back. back ≡ reverse bytes.now) }
{
    let back: Vec<u8> = bytes.iter().rev().copied().collect(alloc)?;
    Ok(Octets::from_vec(back))
}

/// The bytes without the spaces and tabs at both ends.
#[tactic(auto, unfolding(httparse::specs::Grammar::trim_ows))]
pub(crate) fn trim_ows(alloc: Global, bytes: &[u8]) -> Result<Octets, AllocError>
    ensures { IfOk result (λ value. value ≡ trim_ows bytes.now) }
{
    let back = reversed(alloc, skip_ows(bytes))?;
    reversed(alloc, skip_ows(back.as_bytes()))
}

// The name in lower case and the value of a field line.
#[tactic(auto, unfolding(http1_grammar::specs::RequestText::field_of))]
fn field_of(alloc: Global, line: &[u8]) -> Result<Option<Header>, AllocError>
    ensures { IfOk result (λ found. found ≡ option_map header_of (field_of line.now)) }
{
    let Some((name, raw)) = cut_at(b':', line_text(line)) else {
        return Ok(None);
    };
    if !is_token(name) || !are_value_bytes(raw) {
        return Ok(None);
    }
    Ok(Some((lowercase(alloc, name)?, trim_ows(alloc, raw)?)))
}

// The headers of the field lines, which an empty line ends with nothing behind it.
#[tactic(auto, unfolding(http1_grammar::specs::RequestText::section_of))]
fn section_of(alloc: Global, lines: &[&[u8]]) -> Result<Option<Vec<Header>>, AllocError>
    ensures { IfOk result (λ found. option_map (λ headers. headers.items) found
        ≡ option_map headers_of (section_of (map (λ line. line.now) lines.now))) }
{
    match lines {
        [] | [_] => Ok(None),
        [line, behind] => {
            if line_text(line).len() == 0 && behind.len() == 0 {
                Ok(Some(Vec::new(alloc)))
            } else {
                Ok(None)
            }
        }
        [line, rest @ ..] => {
            let Some(field) = field_of(alloc, line)? else {
                return Ok(None);
            };
            let Some(mut headers) = section_of(alloc, rest)? else {
                return Ok(None);
            };
            headers.insert(0, field)?;
            Ok(Some(headers))
        }
    }
}

#[tactic(auto, unfolding(http1_grammar::specs::RequestText::minor_of))]
fn minor_of(version: &[u8]) -> Option<u8>
    ensures { result ≡ minor_of version.now }
{
    if version == b"HTTP/1.1".as_slice() {
        Some(1)
    } else if version == b"HTTP/1.0".as_slice() {
        Some(0)
    } else {
        None
    }
}

// The head that a request line begins.
#[tactic(auto, unfolding(http1_grammar::specs::RequestText::request_line_of))]
fn request_line_of(alloc: Global, line: &[u8]) -> Result<Option<Head>, AllocError>
    ensures { IfOk result (λ found. found ≡ option_map begun_head (request_line_of line.now)) }
{
    let Some((method, behind)) = cut_at(b' ', line_text(line)) else {
        return Ok(None);
    };
    let Some((target, version)) = cut_at(b' ', behind) else {
        return Ok(None);
    };
    let Some(minor) = minor_of(version) else {
        return Ok(None);
    };
    if !is_token(method) || !is_target(target) {
        return Ok(None);
    }
    Ok(Some(Head {
        method: Octets::of(alloc, method)?,
        target: Octets::of(alloc, target)?,
        minor,
        headers: Vec::new(alloc),
    }))
}

fn request_head_of(alloc: Global, lines: &[&[u8]]) -> Result<Option<Head>, AllocError>
    ensures { IfOk result (λ found. found
        ≡ option_map head_of (request_head_of (map (λ line. line.now) lines.now))) }
{
    let [line, rest @ ..] = lines else {
        return Ok(None);
    };
    let Some(mut head) = request_line_of(alloc, line)? else {
        return Ok(None);
    };
    let Some(headers) = section_of(alloc, rest)? else {
        return Ok(None);
    };
    head.headers = headers;
    Ok(Some(head))
}

/// The request head that the text is, with no empty line before it.
#[tactic(auto, unfolding(http1_grammar::specs::RequestText::request_head))]
pub(crate) fn request_head(alloc: Global, text: &[u8]) -> Result<Option<Head>, AllocError>
    ensures { IfOk result (λ found. found ≡ option_map head_of (request_head text.now)) }
{
    request_head_of(alloc, &lines(alloc, text)?)
}
