//! The line before a chunk (RFC 9112, section 7.1.1).
ghost use Rattle.std.specs.Prelude.{◌≡◌, ◌==◌, ◌<◌, ◌≤◌, ◌^◌, true, None, Some, length, if◌then◌else◌, nat_lt};
ghost use Rattle.std.specs.List.{list_all, prefix_len};
ghost use Rattle.std.specs.Char.{is_ascii_hexdigit, digit_value};
ghost use Rattle.std.specs.Str.Parse.{digits_value};
ghost use Rattle.httparse.specs.Grammar.{is_extension_byte};
ghost use Rattle.http1_grammar.specs.Body.{chunk_size, is_extension, size_of};
ghost use Rattle.http1_reader.specs.Pieces.{line_by};

/// What a chunk line says, where the body has room for so many bytes.
#[derive(Clone, Copy)]
pub(crate) enum ChunkLine {
    /// It is no chunk line.
    Bad,
    /// A chunk of more bytes than there is room for.
    TooLarge,
    /// The last chunk.
    Last,
    /// A chunk of this size.
    Sized(usize),
}

fn hex_digit(digit: u8) -> usize
    requires { is_ascii_hexdigit digit ≡ true }
    ensures value { result ≡ digit_value digit }
    ensures below { result < 16 }
{
    match digit {
        b'0'..=b'9' => usize::from(digit - b'0'),
        b'A'..=b'F' => usize::from(digit - b'A') + 10,
        _ => usize::from(digit - b'a') + 10,
    }
}

// The number that the hexadecimal digits write, unless it is above the limit.
fn hex_up_to(digits: &[u8], most: usize) -> Option<usize>
    requires limit { most < 2 ^ 32 }
    requires digits { list_all is_ascii_hexdigit digits.now ≡ true }
    ensures { result ≡ (if nat_lt most (digits_value 16 digits.now) then None
        else Some (digits_value 16 digits.now)) }
{
    let mut number = 0;
    for digit in digits {
        number = number * 16 + hex_digit(*digit);
        if number > most {
            return None;
        }
    }
    Some(number)
}

// How many hexadecimal digits stand at the front.
fn hex_len(text: &[u8]) -> usize
    ensures value { result ≡ prefix_len is_ascii_hexdigit text.now }
    ensures within { result ≤ length text.now }
{
    for (at, b) in text.iter().enumerate() {
        if !b.is_ascii_hexdigit() {
            return at;
        }
    }
    text.len()
}

fn are_extension_bytes(bytes: &[u8]) -> bool
    ensures { result ≡ list_all is_extension_byte bytes.now }
{
    bytes.iter().all(|b| *b != b'\r' && *b != b'\n')
}

// Whether the bytes may follow a size.
fn is_extension(bytes: &[u8]) -> bool
    ensures { result ≡ is_extension bytes.now }
{
    match bytes {
        [] => true,
        [b, rest @ ..] => (*b == b';' || *b == b' ' || *b == b'\t') && are_extension_bytes(rest),
    }
}

const MOST_DIGITS: usize = 16;

fn sized_line(size: usize) -> ChunkLine
    ensures { result ≡ (if size == 0 then ChunkLine.Last else ChunkLine.Sized size) }
{
    if size == 0 {
        ChunkLine::Last
    } else {
        ChunkLine::Sized(size)
    }
}

// The same of the line without its CR LF.
fn line_of(text: &[u8], room: usize) -> ChunkLine
    requires { room < 2 ^ 32 }
    ensures { result ≡ line_by room (size_of text.now) }
{
    let count = hex_len(text);
    if count == 0 || count > MOST_DIGITS || !is_extension(&text[count..]) {
        return ChunkLine::Bad;
    }
    match hex_up_to(&text[..count], room) {
        Some(size) => sized_line(size),
        None => ChunkLine::TooLarge,
    }
}

/// What a line before its LF says, where the body has room for so many bytes.
pub(crate) fn chunk_line(line: &[u8], room: usize) -> ChunkLine
    requires { room < 2 ^ 32 }
    ensures { result ≡ line_by room (chunk_size line.now) }
{
    let len = line.len();
    if len > 0 && line[len - 1] == b'\r' {
        line_of(&line[..len - 1], room)
    } else {
        ChunkLine::Bad
    }
}
