//! How a request's body is framed.
ghost use Rattle.std.specs.Prelude.{◌≡◌, ◌<◌, ◌^◌, ◌∷◌, ℕ, List, None, Some, true, if◌then◌else◌, nat_lt};
ghost use Rattle.std.specs.List.{list_all};
ghost use Rattle.std.specs.Char.{is_ascii_digit};
ghost use Rattle.std.specs.Str.Parse.{digits_value};
ghost use Rattle.http1_grammar.specs.Framing.{framing, framing_by, is_number, number_framing, coding_framing};
ghost use Rattle.http1_plain.specs.Singles.{IsSingle};
ghost use Rattle.http1_plain.specs.Views.{view, minor_version};
ghost use Rattle.http1_head.specs.Framings.{capped};

use crate::fields::Fields;
use http1_plain::{HttpVersion, RequestHead, Single};

/// The framing of a body of at most so many bytes (RFC 9112, section 6).
#[derive(Clone, Copy, Debug, PartialEq, Eq)]
pub enum Framing {
    /// No body.
    Empty,
    /// A body of this length.
    Sized(usize),
    /// A length above the limit.
    TooLarge,
    /// A body in chunks.
    Chunked,
    /// No framing, so the request is bad.
    Faulty,
}

// The number that the digits write, unless it is above the limit.
fn number_up_to(digits: &[u8], most: usize) -> Option<usize>
    requires limit { most < 2 ^ 32 }
    requires digits { list_all is_ascii_digit digits.now ≡ true }
    ensures { result ≡ (if nat_lt most (digits_value 10 digits.now) then None
        else Some (digits_value 10 digits.now)) }
{
    let mut number = 0;
    for digit in digits {
        number = number * 10 + usize::from(*digit - b'0');
        if number > most {
            return None;
        }
    }
    Some(number)
}

fn are_digits(value: &[u8]) -> bool
    ensures { result ≡ list_all is_ascii_digit value.now }
{
    value.iter().all(|b| b.is_ascii_digit())
}

fn length_framing(value: &[u8], most: usize) -> Framing
    requires { most < 2 ^ 32 }
    ensures { result ≡ capped most (number_framing value.now) }
{
    if value.is_empty() || !are_digits(value) {
        return Framing::Faulty;
    }
    match number_up_to(value, most) {
        Some(size) => Framing::Sized(size),
        None => Framing::TooLarge,
    }
}

fn coding_framing(version: HttpVersion, coding: &[u8]) -> Framing
    ensures { (most : ℕ) → result ≡ capped most (coding_framing (minor_version version) coding.now) }
{
    if version == HttpVersion::Http11 && coding.eq_ignore_ascii_case(b"chunked") {
        Framing::Chunked
    } else {
        Framing::Faulty
    }
}

// The framing by the values of both fields, of a body of which at most so many bytes are read.
pub(crate) fn framing_by(
    version: HttpVersion,
    coding: Single<'_>,
    length: Single<'_>,
    most: usize,
) -> Framing
    requires { most < 2 ^ 32 }
    ensures { (codings lengths : List (List ℕ)) → IsSingle codings coding.entry → IsSingle lengths length.entry
        → result ≡ capped most (framing_by (minor_version version) codings lengths) }
{
    match (coding, length) {
        (Single::Missing, Single::Missing) => Framing::Empty,
        (Single::Missing, Single::One(value)) => length_framing(value, most),
        (Single::One(value), Single::Missing) => coding_framing(version, value),
        _ => Framing::Faulty,
    }
}

/// The framing of the request's body, of which at most so many bytes are read.
pub fn framing_of(head: &RequestHead, most: usize) -> Framing
    requires { most < 2 ^ 32 }
    ensures { result ≡ capped most (framing (view head.now)) }
{
    Fields::of(&head.headers).framing(head.version, most)
}
