//! Decimal numbers.
ghost use Rattle.std.specs.Prelude.{◌≡◌, ◌<◌, ◌≤◌, ◌^◌, IfSome};
ghost use Rattle.std.specs.List.{list_all};
ghost use Rattle.script.specs.Numbers.{is_digit, is_decimal, number_behind, number_in, number_to};

/// The decimal number that a text writes, if it is no greater than `most`. It has digits alone, and no zero before others.
pub fn number_to(most: u128, text: &[u8]) -> Option<u128>
    requires { most < 2 ^ 64 }
    ensures value { result ≡ number_to most text.now }
    ensures small { IfSome result (λ n. n ≤ most) }
{
    if !is_decimal(text) {
        return None;
    }
    let mut value: u128 = 0;
    for digit in text {
        value = value * 10 + u128::from(*digit - b'0');
        if value > most {
            return None;
        }
    }
    Some(value)
}

/// The decimal number that a text writes, if it is from `least` to `most`.
pub fn number_in(least: u128, most: u128, text: &[u8]) -> Option<usize>
    requires { most < 2 ^ 64 }
    ensures value { result ≡ number_in least most text.now }
    ensures small { IfSome result (λ n. n ≤ most) }
{
    let n = number_to(most, text)?;
    if n < least {
        return None;
    }
    Some(n as usize)
}

/// The number from `least` to `most` that stands in a line behind these bytes, if the line begins with them.
pub(crate) fn number_behind(front: &[u8], least: u128, most: u128, line: &[u8]) -> Option<usize>
    requires { most < 2 ^ 64 }
    ensures value { result ≡ number_behind front.now least most line.now }
    ensures small { IfSome result (λ n. n ≤ most) }
{
    if !line.starts_with(front) {
        return None;
    }
    number_in(least, most, &line[front.len()..])
}

/// Whether a text is decimal digits with no zero before others.
fn is_decimal(text: &[u8]) -> bool
    ensures { result ≡ is_decimal text.now }
{
    if text.is_empty() || (text.starts_with(b"0".as_slice()) && text.len() > 1) {
        return false;
    }
    are_digits(text)
}

fn are_digits(text: &[u8]) -> bool
    ensures { result ≡ list_all is_digit text.now }
{
    text.iter().all(|c| is_digit(*c))
}

fn is_digit(byte: u8) -> bool
    ensures { result ≡ is_digit byte }
{
    b'0' <= byte && byte <= b'9'
}
