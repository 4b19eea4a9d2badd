//! The peer in a `conn` line: `local`, or `a.b.c.d:port`.
ghost use Rattle.std.specs.Prelude.{◌≡◌, ◌+◌, ◌*◌, ◌^◌, ◌==◌, ◌<◌, ◌≤◌, Option, length, Some, None, IfSome};
ghost use Rattle.std.specs.Option.{option_map};
ghost use Rattle.script.specs.Numbers.{number_to};
ghost use Rattle.script.specs.Script.{cut_at, octet_first, host_of, v4_of, peer_of};

use crate::text::number_to;
use service_core::Peer;

/// The peer that a text names. None where it names none.
pub(crate) fn read_peer(text: &[u8]) -> Option<Peer>
    ensures { result ≡ peer_of text.now }
{
    if text == b"local".as_slice() {
        return Some(Peer::Local);
    }
    read_v4(text)
}

fn read_v4(text: &[u8]) -> Option<Peer>
    ensures { result ≡ v4_of text.now }
{
    let (host, port) = cut(text, b':')?;
    let host = read_host(host)?;
    let port = number_to(65535, port)?;
    Some(Peer::V4 {
        host,
        port: port as u16,
    })
}

/// The address of four numbers with points between them.
fn read_host(text: &[u8]) -> Option<u32>
    ensures { result ≡ host_of text.now }
{
    let (a, more) = octet_first(text)?;
    let (b, more) = octet_first(more)?;
    let (c, more) = octet_first(more)?;
    let d = number_to(255, more)? as u32;
    Some(a * 16_777_216 + b * 65_536 + c * 256 + d)
}

/// A number up to 255 before the first point, and what stands behind the point.
fn octet_first(text: &[u8]) -> Option<(u32, &[u8])>
    ensures value { option_map (λ (n, more). (n, more.now)) result ≡ octet_first text.now }
    ensures small { IfSome result (λ (n, more). n ≤ 255) }
{
    let (first, more) = cut(text, b'.')?;
    let n = number_to(255, first)? as u32;
    Some((n, more))
}

/// What stands before the first `at` of a text, and what stands behind it.
fn cut(text: &[u8], at: u8) -> Option<(&[u8], &[u8])>
    ensures { option_map (λ (before, behind). (before.now, behind.now)) result ≡ cut_at at text.now }
{
    let i = text.iter().position(|b| *b == at)?;
    Some((&text[..i], &text[i + 1..]))
}
