//! The line before a chunk (RFC 9112, section 7.1.1).
ghost use Rattle.std.specs.Prelude.{◌≡◌, ◌<◌, ◌≤◌, true, length};
ghost use Rattle.std.specs.List.{list_all, prefix_len};
ghost use Rattle.std.specs.Char.{digit_value, is_ascii_hexdigit};
ghost use Rattle.std.specs.Str.Parse.{digits_value};
ghost use Rattle.httparse.specs.Grammar.{is_extension_byte};
ghost use Rattle.http1_grammar.specs.Body.{chunk_size, is_crlf, is_extension, size_of};
ghost use Rattle.http1_grammar.specs.Lines.{line_end};

use crate::lines::line_text;

// Whether a CR stands before the LF.
#[tactic(auto, unfolding(http1_grammar::specs::Lines::line_end))]
fn is_crlf(line: &[u8]) -> bool
    ensures { result ≡ is_crlf (line_end line.now) }
{
    match line {
        [] => false,
        [b] => *b == b'\r',
        [_, rest @ ..] => is_crlf(rest),
    }
}

fn hex_digit(digit: u8) -> usize
    requires { is_ascii_hexdigit digit ≡ true }
    ensures value { result ≡ digit_value digit }
    ensures below { result < 16 }
{
    match digit {
        b'0'..=b'9' => usize::from(digit - b'0'),
        b'A'..=b'F' => usize::from(digit - b'A') + 10,
        _ => usize::from(digit - b'a') + 10,
    }
}

// The number that at most 16 hexadecimal digits write.
fn hex_number(digits: &[u8]) -> usize
    requires few { length digits.now ≤ 16 }
    requires digits { list_all is_ascii_hexdigit digits.now ≡ true }
    ensures { result ≡ digits_value 16 digits.now }
{
    let mut number = 0;
    for digit in digits {
        number = number * 16 + hex_digit(*digit);
    }
    number
}

// How many hexadecimal digits stand at the front.
fn hex_len(text: &[u8]) -> usize
    ensures value { result ≡ prefix_len is_ascii_hexdigit text.now }
    ensures within { result ≤ length text.now }
{
    for (at, b) in text.iter().enumerate() {
        if !b.is_ascii_hexdigit() {
            return at;
        }
    }
    text.len()
}

fn are_extension_bytes(bytes: &[u8]) -> bool
    ensures { result ≡ list_all is_extension_byte bytes.now }
{
    bytes.iter().all(|b| *b != b'\r' && *b != b'\n')
}

fn is_extension(bytes: &[u8]) -> bool
    ensures { result ≡ is_extension bytes.now }
{
    match bytes {
        [] => true,
        [b, rest @ ..] => (*b == b';' || *b == b' ' || *b == b'\t') && are_extension_bytes(rest),
    }
}

const MOST_DIGITS: usize = 16;

fn size_of(text: &[u8]) -> Option<usize>
    ensures { result ≡ size_of text.now }
{
    let count = hex_len(text);
    if count == 0 || count > MOST_DIGITS || !is_extension(&text[count..]) {
        return None;
    }
    Some(hex_number(&text[..count]))
}

/// The size that a chunk's line gives, which is what stands before its LF.
#[tactic(auto, unfolding(http1_grammar::specs::Body::chunk_size))]
pub(crate) fn chunk_size(line: &[u8]) -> Option<usize>
    ensures { result ≡ chunk_size line.now }
{
    if is_crlf(line) {
        size_of(line_text(line))
    } else {
        None
    }
}
