//! How a request's body is framed.
ghost use Rattle.std.specs.Prelude.{◌≡◌, ℕ, None, Some, filter, if◌then◌else◌, map, nat_lt, true, IfOk};
ghost use Rattle.std.specs.List.{list_all};
ghost use Rattle.std.specs.Char.{is_ascii_digit};
ghost use Rattle.std.specs.Str.Parse.{digits_value};
ghost use Rattle.http1_grammar.specs.Framing.{coding_framing, framing, framing_by, number_framing};
ghost use Rattle.http1_grammar.specs.Headers.{is_named};
ghost use Rattle.http1_head.specs.Framings.{capped};

use crate::head::{Head, Header};
use http1_head::Framing;
use std::alloc::{AllocError, Global};

/// The headers of the name, in order.
pub(crate) fn named<'a>(
    alloc: Global,
    headers: &'a [Header],
    name: &[u8],
) -> Result<Vec<&'a Header>, AllocError>
    ensures { IfOk result (λ found. map (λ header. header.now) found.items ≡ filter (is_named name.now) headers.now) }
{
    headers
        .iter()
        .filter(|header| header.0.as_bytes() == name)
        .collect(alloc)
}

// The number that the digits write, unless it is above the limit.
fn number_up_to(digits: &[u8], most: usize) -> Option<usize>
    requires digits { list_all is_ascii_digit digits.now ≡ true }
    ensures { result ≡ (if nat_lt most (digits_value 10 digits.now) then None
        else Some (digits_value 10 digits.now)) }
{
    let mut number = 0;
    for digit in digits {
        number = number * 10 + u128::from(*digit - b'0');
        if number > most as u128 {
            return None;
        }
    }
    Some(number as usize)
}

fn are_digits(value: &[u8]) -> bool
    ensures { result ≡ list_all is_ascii_digit value.now }
{
    value.iter().all(|b| b.is_ascii_digit())
}

fn number_framing(value: &[u8], most: usize) -> Framing
    ensures { result ≡ capped most (number_framing value.now) }
{
    if value.is_empty() || !are_digits(value) {
        return Framing::Faulty;
    }
    match number_up_to(value, most) {
        Some(size) => Framing::Sized(size),
        None => Framing::TooLarge,
    }
}

fn coding_framing(minor: u8, coding: &[u8]) -> Framing
    ensures { (most : ℕ) → result ≡ capped most (coding_framing minor coding.now) }
{
    if minor == 1 && coding.eq_ignore_ascii_case(b"chunked") {
        Framing::Chunked
    } else {
        Framing::Faulty
    }
}

// The framing of the version, the headers `Transfer-Encoding` and the headers `Content-Length`.
fn framing_by(minor: u8, codings: &[&Header], lengths: &[&Header], most: usize) -> Framing
    ensures { result ≡ capped most (framing_by minor
        (map (λ header. header.now.1) codings.now) (map (λ header. header.now.1) lengths.now)) }
{
    match codings {
        [] => match lengths {
            [] => Framing::Empty,
            [length] => number_framing(length.1.as_bytes(), most),
            _ => Framing::Faulty,
        },
        [coding] => match lengths {
            [] => coding_framing(minor, coding.1.as_bytes()),
            _ => Framing::Faulty,
        },
        _ => Framing::Faulty,
    }
}

/// The framing of the request's body, of which at most so many bytes are read.
#[tactic(auto, unfolding(http1_grammar::specs::Framing::framing))]
pub(crate) fn framing(alloc: Global, head: &Head, most: usize) -> Result<Framing, AllocError>
    ensures { IfOk result (λ found. found ≡ capped most (framing head.now)) }
{
    let codings = named(alloc, head.headers(), b"transfer-encoding")?;
    let lengths = named(alloc, head.headers(), b"content-length")?;
    Ok(framing_by(head.minor(), codings.as_slice(), lengths.as_slice(), most))
}
