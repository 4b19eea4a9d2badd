//! The headers of a request, one after another.
ghost use Rattle.std.specs.Prelude.{◌≡◌, All};
ghost use Rattle.std.specs.Iterator.{YieldsFirstBy, item_count};
ghost use Rattle.http1_plain.specs.Fields.{lowered};
ghost use Rattle.http1_plain.specs.Spanned.{headers_at, IsSpanOf};

use httparse::spans::HeaderSpan;
use std::marker::Model;

/// The headers of a request in order (RFC 9110, section 5.3), each by its name, in the case in which it was sent, and its value.
/// A contract sees those that are left.
#[derive(Drop)]
pub struct HeaderLines<'a> {
    text: &'a [u8],
    rest: &'a [HeaderSpan],
}

impl<'a> Model for HeaderLines<'a> {
    ghost use Rattle.std.specs.Prelude.{List, All};
    ghost use Rattle.http1_grammar.specs.Headers.{Header};
    ghost use Rattle.http1_plain.specs.Spanned.{headers_at, IsSpanOf};

    ghost Value = { List Header };

    ghost view = { λ it. headers_at it.text.now it.rest.now };

    ghost invariant = { λ it. All (IsSpanOf it.text.now) it.rest.now };
}

impl<'a> HeaderLines<'a> {
    pub(crate) fn new(text: &'a [u8], spans: &'a [HeaderSpan]) -> HeaderLines<'a>
        requires { All (IsSpanOf text.now) spans.now }
        ensures { result ≡ headers_at text.now spans.now }
    {
        HeaderLines { text, rest: spans }
    }
}

impl<'a> Iterator for HeaderLines<'a> {
    type Item = (&'a [u8], &'a [u8]);

    ghost next_gives = { YieldsFirstBy (λ line. lowered (line.0.now, line.1.now)) (λ it. it) };

    ghost remaining = { item_count (λ it. it) };

    fn next(&mut self) -> Option<(&'a [u8], &'a [u8])> {
        let (span, rest) = self.rest.split_first()?;
        self.rest = rest;
        Some((span.name.of(self.text), span.value.of(self.text)))
    }
}
