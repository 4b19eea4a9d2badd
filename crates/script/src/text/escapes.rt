//! The escapes in the text of a `give` line.
ghost use Rattle.std.specs.Prelude.{◌≡◌, ◌*◌, ◌+◌, ◌<◌, IfOk, Option, map, length};
ghost use Rattle.std.specs.Option.{option_map};
ghost use Rattle.script.specs.Script.{escaped, hex_digit, hex_byte, text_bytes};

use service_core::Octets;
use std::alloc::{AllocError, Global};

/// The bytes that a text with escapes stands for. None where a backslash stands before anything
/// that is no escape.
pub(crate) fn unescaped(alloc: Global, text: &[u8]) -> Result<Option<Octets>, AllocError>
    ensures { IfOk result (λ bytes. bytes ≡ text_bytes text.now) }
{
    let mut bytes = Vec::new(alloc);
    let mut rest = text;
    while let [first, after @ ..] = rest {
        if *first != b'\\' {
            bytes.push(*first)?;
            rest = after;
            continue;
        }
        let [letter, after @ ..] = after else {
            return Ok(None);
        };
        if *letter == b'x' {
            let [high, low, after @ ..] = after else {
                return Ok(None);
            };
            let Some(byte) = hex_byte(*high, *low) else {
                return Ok(None);
            };
            bytes.push(byte)?;
            rest = after;
        } else {
            let Some(byte) = escaped(*letter) else {
                return Ok(None);
            };
            bytes.push(byte)?;
            rest = after;
        }
    }
    Ok(Some(Octets::from_vec(bytes)))
}

/// The byte that a letter stands for behind a backslash.
fn escaped(letter: u8) -> Option<u8>
    ensures { result ≡ escaped letter }
{
    match letter {
        b'r' => Some(b'\r'),
        b'n' => Some(b'\n'),
        b't' => Some(b'\t'),
        b'"' => Some(b'"'),
        b'\\' => Some(b'\\'),
        _ => None,
    }
}

fn hex_byte(high: u8, low: u8) -> Option<u8>
    ensures { result ≡ hex_byte high low }
{
    let high = hex_digit(high)?;
    let low = hex_digit(low)?;
    Some(high * 16 + low)
}

fn hex_digit(digit: u8) -> Option<u8>
    ensures { result ≡ hex_digit digit }
{
    match digit {
        b'0'..=b'9' => Some(digit - b'0'),
        b'a'..=b'f' => Some(digit - b'a' + 10),
        b'A'..=b'F' => Some(digit - b'A' + 10),
        _ => None,
    }
}
