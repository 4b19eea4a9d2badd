//! What the headers of a head say of its body and of its connection.
ghost use Rattle.std.specs.Prelude.{◌≡◌, ◌||◌, ◌<◌, ◌^◌, ◌∷◌, ◌++◌, [], List, bytes_eq, codes};
ghost use Rattle.http_header.specs.Token.{lowercase};
ghost use Rattle.http1_grammar.specs.Framing.{framing};
ghost use Rattle.http1_grammar.specs.Head.{Head};
ghost use Rattle.http1_grammar.specs.Headers.{Header};
ghost use Rattle.http1_plain.specs.Fields.{lowered};
ghost use Rattle.http1_plain.specs.Views.{minor_version};
ghost use Rattle.http1_head.specs.Asking.{IsAskedBy, IsSaidBy};
ghost use Rattle.http1_head.specs.Framings.{capped};

use crate::asks::Asks;
use crate::framing::{Framing, framing_by};
use crate::options::ConnectionOptions;
use http1_plain::{HttpVersion, RequestHeaders, Single, is_name};

/// What the fields say by which a body is framed, and by which something is asked of the connection.
#[derive(Clone, Copy)]
pub(crate) struct Fields<'a> {
    coding: Single<'a>,
    length: Single<'a>,
    options: ConnectionOptions,
    expectation: bool,
}

// Whether there was an expectation, or the value of one more `Expect` field is the one that is known.
fn has_expectation(had: bool, value: &[u8]) -> bool
    ensures { result ≡ (had || bytes_eq (lowercase value.now) (codes "100-continue")) }
{
    had || value.eq_ignore_ascii_case(b"100-continue")
}

impl<'a> Fields<'a> {
    // What no headers say.
    fn none() -> Fields<'a>
        ensures { IsSaidBy [] result }
    {
        Fields {
            coding: Single::Missing,
            length: Single::Missing,
            options: ConnectionOptions::none(),
            expectation: false,
        }
    }

    // With one more header, whose name is in any case.
    fn and(self, name: &[u8], value: &'a [u8]) -> Fields<'a>
        ensures { (headers : List Header) → IsSaidBy headers self.entry
            → IsSaidBy (headers ++ lowered (name.now, value.now) ∷ []) result }
    {
        let mut fields = self;
        if is_name(name, b"transfer-encoding") {
            fields.coding = fields.coding.and(value);
        } else if is_name(name, b"content-length") {
            fields.length = fields.length.and(value);
        } else if is_name(name, b"connection") {
            fields.options = fields.options.and(value);
        } else if is_name(name, b"expect") {
            fields.expectation = has_expectation(fields.expectation, value);
        }
        fields
    }

    /// What these headers say, from one walk over them.
    pub(crate) fn of(headers: &'a RequestHeaders) -> Fields<'a>
        ensures { IsSaidBy headers.now result }
    {
        let mut fields = Fields::none();
        for place in 0..headers.len() {
            let (name, value) = headers.line(place);
            fields = fields.and(name, value);
        }
        fields
    }

    /// The framing of the body behind a head of this version, of which at most so many bytes are read.
    pub(crate) fn framing(&self, version: HttpVersion, most: usize) -> Framing
        requires { most < 2 ^ 32 }
        ensures { (head : Head) → IsSaidBy head.headers self.now → minor_version version ≡ head.minor
            → result ≡ capped most (framing head) }
    {
        framing_by(version, self.coding, self.length, most)
    }

    /// What a head of this version asks of its connection.
    pub(crate) fn asks(&self, version: HttpVersion) -> Asks
        ensures { (head : Head) → IsSaidBy head.headers self.now → minor_version version ≡ head.minor
            → IsAskedBy head result }
    {
        match version {
            HttpVersion::Http10 => Asks {
                closes: self.options.ends_old(),
                upgrades: self.options.upgrade,
                expects: false,
            },
            HttpVersion::Http11 => Asks {
                closes: self.options.close,
                upgrades: self.options.upgrade,
                expects: self.expectation,
            },
        }
    }
}
