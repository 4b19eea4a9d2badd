//! White space around a part of a value (RFC 9110, section 5.6.3).
ghost use Rattle.std.specs.Prelude.{◌≡◌, reverse};
ghost use Rattle.httparse.specs.Grammar.{is_ows, skip_ows, trim_ows};

fn is_ows(b: u8) -> bool
    ensures { result ≡ is_ows b }
{
    b == b' ' || b == b'\t'
}

// The bytes behind the white space at the front.
fn without_front(part: &[u8]) -> &[u8]
    ensures { result.now ≡ skip_ows part.now }
{
    let mut left = part;
    while let [first, rest @ ..] = left {
        if !is_ows(*first) {
            break;
        }
        left = rest;
    }
    left
}

// The bytes before the white space at the end.
fn without_back(part: &[u8]) -> &[u8]
    ensures { result.now ≡ reverse (skip_ows (reverse part.now)) }
{
    let mut left = part;
    while let [rest @ .., last] = left {
        if !is_ows(*last) {
            break;
        }
        left = rest;
    }
    left
}

/// The part without the white space around it.
#[tactic(auto, unfolding(httparse::specs::Grammar::trim_ows))]
pub fn trimmed(part: &[u8]) -> &[u8]
    ensures { result.now ≡ trim_ows part.now }
{
    without_back(without_front(part))
}
