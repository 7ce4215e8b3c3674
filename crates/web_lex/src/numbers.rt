//! Octal and hexadecimal numbers.
ghost use Rattle.std.specs.Prelude.{◌≡◌, ◌<◌, ◌≤◌, ◌*◌, ◌+◌, nat_lt, Some, None, length, if◌then◌else◌};
ghost use Rattle.std.specs.List.{prefix_len};
ghost use Rattle.web_lex.specs.Token.{greatest_value, is_octal_digit, is_hex_digit, value_in, value_of_digit};

// The greatest value of a constant.
const GREATEST_VALUE: u64 = 2_147_483_647;

// How many of the first bytes are octal digits.
pub(crate) fn octal_digits(bytes: &[u8]) -> usize
    ensures value { result ≡ prefix_len is_octal_digit bytes.now }
    ensures within { result ≤ length bytes.now }
{
    bytes
        .iter()
        .take_while(|byte| matches!(byte, b'0'..=b'7'))
        .count()
}

// How many of the first bytes are hexadecimal digits.
pub(crate) fn hex_digits(bytes: &[u8]) -> usize
    ensures value { result ≡ prefix_len is_hex_digit bytes.now }
    ensures within { result ≤ length bytes.now }
{
    bytes
        .iter()
        .take_while(|byte| matches!(byte, b'0'..=b'9' | b'A'..=b'F'))
        .count()
}

// The value of digits in a base, or none where it is past the greatest.
pub(crate) fn value_of(base: u64, digits: &[u8]) -> Option<u32>
    requires low { 0 < base }
    requires high { base ≤ 16 }
    ensures { result
        ≡ (if nat_lt greatest_value (value_in base digits.now) then None else Some (value_in base digits.now)) }
{
    let mut value = 0;
    for digit in digits {
        value = value * base + u64::from(value_of_digit(*digit));
        if value > GREATEST_VALUE {
            return None;
        }
    }
    Some(value as u32)
}

// The value of a digit.
fn value_of_digit(byte: u8) -> u8
    ensures { result ≡ value_of_digit byte }
{
    if byte.is_ascii_digit() {
        byte - b'0'
    } else {
        byte.saturating_sub(b'A' - 10)
    }
}
