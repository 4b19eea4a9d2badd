//! Where a line ends.
ghost use Rattle.std.specs.Prelude.{◌≡◌, ◌≤◌, ◌<◌, ◌+◌, None, length, take, drop, option_map, IfSome};
ghost use Rattle.http1_grammar.specs.Lines.{cut_at};

use memchr::memchr;

// Where the first LF stands.
fn line_feed(bytes: &[u8]) -> Option<usize>
    ensures within { IfSome result (λ at. at < length bytes.now) }
    ensures value { option_map (λ at. (take at bytes.now, drop (at + 1) bytes.now)) result ≡ cut_at 10 bytes.now }
{
    memchr(b'\n', bytes)
}

/// Where the first LF stands, which is none of the bytes before `from`.
pub(crate) fn line_feed_from(bytes: &[u8], from: usize) -> Option<usize>
    requires within { from ≤ length bytes.now }
    requires none_before { cut_at 10 (take from bytes.now) ≡ None }
    ensures within { IfSome result (λ at. at < length bytes.now) }
    ensures value { option_map (λ at. (take at bytes.now, drop (at + 1) bytes.now)) result ≡ cut_at 10 bytes.now }
{
    match line_feed(&bytes[from..]) {
        Some(at) => Some(from + at),
        None => None,
    }
}
