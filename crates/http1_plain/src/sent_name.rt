//! Names as they were sent.
ghost use Rattle.std.specs.Prelude.{◌≡◌, length, bytes_eq, false};
ghost use Rattle.http_header.specs.Token.{lowercase};

// Whether the name, which is as long, is this one with each letter in lower case.
fn is_lowered(sent: &[u8], name: &[u8]) -> bool
    requires { length sent.now ≡ length name.now }
    ensures { result ≡ bytes_eq (lowercase sent.now) name.now }
{
    for place in 0..sent.len() {
        if sent[place].to_ascii_lowercase() != name[place] {
            return false;
        }
    }
    true
}

// Whether the first byte, as a letter in lower case, is the name's: of most other names that are as long it isn't.
#[inline(always)]
fn begins_alike(sent: &[u8], name: &[u8]) -> bool
    requires { length sent.now ≡ length name.now }
    ensures { result ≡ false → bytes_eq (lowercase sent.now) name.now ≡ false }
{
    sent.is_empty() || sent[0].to_ascii_lowercase() == name[0]
}

/// Whether a header's name, as it was sent, is this one, which is in lower case (RFC 9110, section 5.1).
#[inline(always)]
pub fn is_name(sent: &[u8], name: &[u8]) -> bool
    requires { lowercase name.now ≡ name.now }
    ensures { result ≡ bytes_eq (lowercase sent.now) name.now }
{
    sent.len() == name.len() && begins_alike(sent, name) && (sent == name || is_lowered(sent, name))
}
