//! Where lines and heads end.
ghost use Rattle.std.specs.Prelude.{◌≡◌, ◌≢◌, ◌≤◌, ◌<◌, ℕ, length, take, drop, count_by, slice_index, option_map, IfSome};
ghost use Rattle.http1_grammar.specs.Lines.{is_line_feed, empty_line, skip_empty_lines, head_len};
ghost use Rattle.http1_head.specs.Passing.{EndsFrom};

use memchr::{memchr, memchr_iter};

/// How many bytes an empty line at the front has.
pub fn empty_line(bytes: &[u8]) -> Option<usize>
    ensures value { result ≡ empty_line bytes.now }
    ensures within { IfSome result (λ len. len ≤ length bytes.now) }
{
    match bytes {
        [b'\n', ..] => Some(1),
        [b'\r', b'\n', ..] => Some(2),
        _ => None,
    }
}

/// How many bytes the empty lines at the front have.
pub fn empty_lines(bytes: &[u8]) -> usize
    ensures within { result ≤ length bytes.now }
    ensures rest { drop result bytes.now ≡ skip_empty_lines bytes.now }
{
    let mut at = 0;
    while let Some(len) = empty_line(&bytes[at..]) {
        at += len;
    }
    at
}

// The place of the first line feed from here on, or the end.
fn line_feed(bytes: &[u8], at: usize) -> usize
    requires { at ≤ length bytes.now }
    ensures from { at ≤ result }
    ensures within { result ≤ length bytes.now }
    ensures before { (k : ℕ) → at ≤ k → k < result → slice_index bytes.now k ≢ 10 }
    ensures here { result < length bytes.now → slice_index bytes.now result ≡ 10 }
{
    match memchr(b'\n', &bytes[at..]) {
        Some(place) => at + place,
        None => bytes.len(),
    }
}

/// A head at the front of bytes.
#[derive(Clone, Copy)]
pub struct HeadSize {
    /// How many bytes it has.
    pub len: usize,
    /// How many line feeds stand in it.
    pub lines: usize,
}

// How many line feeds stand in the bytes.
fn count_lines(bytes: &[u8]) -> usize
    ensures { result ≡ count_by is_line_feed bytes.now }
{
    memchr_iter(b'\n', bytes).count()
}

/// How large the head at the front is, if it ends there (RFC 9112, section 2.2). Its end is looked for from this place on.
pub fn head_size_from(bytes: &[u8], from: usize) -> Option<HeadSize>
    requires within { from ≤ length bytes.now }
    requires passed { EndsFrom bytes.now from }
    ensures value { option_map (λ size. size.len) result ≡ head_len bytes.now }
    ensures within { IfSome result (λ size. size.len ≤ length bytes.now) }
    ensures lines { IfSome result (λ size. size.lines ≡ count_by is_line_feed (take size.len bytes.now)) }
{
    let mut at = from;
    let mut lines = 0;
    while at < bytes.len() {
        let end = line_feed(bytes, at);
        if end == bytes.len() {
            return None;
        }
        if let Some(len) = empty_line(&bytes[end + 1..]) {
            return Some(HeadSize {
                len: end + 1 + len,
                lines: count_lines(&bytes[..from]) + lines + 2,
            });
        }
        at = end + 1;
        lines += 1;
    }
    None
}
