//! Bytes as they are printed.
use std::alloc::AllocError;

fn hexadecimal(number: u8) -> char {
    match number & 15 {
        digit @ 0..=9 => char::from(b'0' + digit),
        digit => char::from(b'a' + (digit - 10)),
    }
}

fn push_byte(text: &mut String, byte: u8) -> Result<(), AllocError> {
    match byte {
        b'\r' => text.push_str("\\r"),
        b'\n' => text.push_str("\\n"),
        b'\\' => text.push_str("\\\\"),
        32..=126 => text.push(char::from(byte)),
        _ => {
            text.push_str("\\x")?;
            text.push(hexadecimal(byte >> 4))?;
            text.push(hexadecimal(byte))
        }
    }
}

/// The text goes on with the bytes, of which those that are no visible ASCII stand as \r, \n or \xHH.
pub fn push_bytes(text: &mut String, bytes: &[u8]) -> Result<(), AllocError> {
    for byte in bytes {
        push_byte(text, *byte)?;
    }
    Ok(())
}

/// The text goes on with a line of a word and these bytes.
pub fn push_line(text: &mut String, word: &str, bytes: &[u8]) -> Result<(), AllocError> {
    text.push_str(word)?;
    if !bytes.is_empty() {
        text.push_str(" ")?;
    }
    push_bytes(text, bytes)?;
    text.push_str("\n")
}
