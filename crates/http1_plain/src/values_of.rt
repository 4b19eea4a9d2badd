//! The values of one name in a request, one after another.
ghost use Rattle.std.specs.Prelude.{◌≡◌, ◌∷◌, [], All, IfSome, IfNone};
ghost use Rattle.std.specs.Iterator.{YieldsFirstRef, item_count};
ghost use Rattle.http_header.specs.Token.{lowercase};
ghost use Rattle.http1_grammar.specs.Headers.{get_all};
ghost use Rattle.http1_plain.specs.Spanned.{headers_at, IsSpanOf};

use crate::is_name;
use http_header::HeaderName;
use httparse::spans::HeaderSpan;
use std::marker::Model;

/// The values of a name in order (RFC 9110, section 5.3), as `actix_http::header::HeaderMap::get_all` gives them.
/// A contract sees those that are left.
#[derive(Drop)]
pub struct ValuesOf<'a> {
    name: &'a [u8],
    text: &'a [u8],
    rest: &'a [HeaderSpan],
}

impl<'a> Model for ValuesOf<'a> {
    ghost use Rattle.std.specs.Prelude.{◌≡◌, ℕ, List, All};
    ghost use Rattle.http_header.specs.Token.{lowercase};
    ghost use Rattle.http1_grammar.specs.Headers.{get_all};
    ghost use Rattle.http1_plain.specs.Spanned.{headers_at, IsSpanOf};

    ghost Value = { List (List ℕ) };

    ghost view = { λ it. get_all (headers_at it.text.now it.rest.now) it.name.now };

    ghost invariant = { λ it. All (IsSpanOf it.text.now) it.rest.now × (lowercase it.name.now ≡ it.name.now) };
}

// The next value of the name, and the headers behind it.
#[inline(always)]
fn next_value<'a>(
    text: &'a [u8],
    spans: &'a [HeaderSpan],
    name: &[u8],
) -> Option<(&'a [u8], &'a [HeaderSpan])>
    requires spans { All (IsSpanOf text.now) spans.now }
    requires name { lowercase name.now ≡ name.now }
    ensures next { IfSome result (λ next. get_all (headers_at text.now spans.now) name.now
        ≡ next.0.now ∷ get_all (headers_at text.now next.1.now) name.now) }
    ensures none { IfNone result (get_all (headers_at text.now spans.now) name.now ≡ []) }
    ensures rest { IfSome result (λ next. All (IsSpanOf text.now) next.1.now) }
{
    let mut rest = spans;
    while let Some((span, behind)) = rest.split_first() {
        rest = behind;
        if is_name(span.name.of(text), name) {
            return Some((span.value.of(text), rest));
        }
    }
    None
}

impl<'a> ValuesOf<'a> {
    #[inline(always)]
    pub(crate) fn new(text: &'a [u8], spans: &'a [HeaderSpan], name: &'a HeaderName) -> ValuesOf<'a>
        requires { All (IsSpanOf text.now) spans.now }
        ensures { result ≡ get_all (headers_at text.now spans.now) name.now }
    {
        ValuesOf {
            name: name.as_bytes(),
            text,
            rest: spans,
        }
    }
}

impl<'a> Iterator for ValuesOf<'a> {
    type Item = &'a [u8];

    ghost next_gives = { YieldsFirstRef (λ it. it) };

    ghost remaining = { item_count (λ it. it) };

    #[inline(always)]
    fn next(&mut self) -> Option<&'a [u8]> {
        let (value, rest) = next_value(self.text, self.rest, self.name)?;
        self.rest = rest;
        Some(value)
    }
}
