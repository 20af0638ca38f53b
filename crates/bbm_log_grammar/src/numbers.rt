//! The two spellings of a number.
//! Source: project's own choice, where no other is named.

ghost use Rattle.std.specs.Prelude.{◌≡◌, ◌+◌, ◌*◌, ◌^◌, ◌<◌, ◌≤◌, if◌then◌else◌, Some, None, IfSome, true};
ghost use Rattle.std.specs.Char.{digit_value};
ghost use Rattle.bbm_events.specs.Spelling.{decimal_value, hex_value};
ghost use Rattle.bbm_log_grammar.specs.Digits as digits;

/// Whether the byte is a decimal digit.
#[inline(always)]
pub(crate) fn is_decimal(byte: u8) -> bool
    ensures { result ≡ digits.is_lower_digit 10 byte }
{
    byte.wrapping_sub(b'0') < 10
}

/// The value of this decimal digit, 0 to 9.
#[inline(always)]
pub(crate) fn decimal_worth(byte: u8) -> u64
    requires { digits.is_lower_digit 10 byte ≡ true }
    ensures { result ≡ digit_value byte }
{
    byte.wrapping_sub(b'0') as u64
}

/// The value of a decimal digit, 0 to 9.
#[inline]
fn decimal_digit(byte: u8) -> Option<u64>
    ensures { result ≡ (if digits.is_lower_digit 10 byte then Some (digit_value byte) else None) }
{
    if is_decimal(byte) {
        Some(decimal_worth(byte))
    } else {
        None
    }
}

/// The value of a lower-case hex digit, 0 to 15.
#[inline]
fn hex_digit(byte: u8) -> Option<u64>
    ensures { result ≡ (if digits.is_lower_digit 16 byte then Some (digit_value byte) else None) }
{
    match byte {
        b'0'..=b'9' => Some((byte - b'0') as u64),
        b'a'..=b'f' => Some((byte - b'a') as u64 + 10),
        _ => None,
    }
}

/// The number with one decimal digit more.
#[inline]
fn next_decimal(n: u64, byte: u8) -> Option<u64>
    ensures { result ≡ digits.next_number 10 n byte }
{
    let value = decimal_digit(byte)?;
    n.checked_mul(10)?.checked_add(value)
}

/// The number with one hex digit more.
#[inline]
fn next_hex(n: u64, byte: u8) -> Option<u64>
    ensures { result ≡ digits.next_number 16 n byte }
{
    let value = hex_digit(byte)?;
    n.checked_mul(16)?.checked_add(value)
}

/// The number that the bytes write as decimal digits, from the left.
#[inline]
fn decimal_digits(bytes: &[u8]) -> Option<u64>
    ensures { result ≡ digits.number_after 10 0 bytes.now }
{
    let mut n = 0;
    for byte in bytes {
        n = next_decimal(n, *byte)?;
    }
    Some(n)
}

/// The number that the bytes write as hex digits, from the left.
#[inline]
fn hex_digits(bytes: &[u8]) -> Option<u64>
    ensures { result ≡ digits.number_after 16 0 bytes.now }
{
    let mut n = 0;
    for byte in bytes {
        n = next_hex(n, *byte)?;
    }
    Some(n)
}

/// The number of a decimal digit or more, without a leading zero.
#[inline]
fn decimal_number(bytes: &[u8]) -> Option<u64>
    ensures { result ≡ digits.number_of 10 bytes.now }
{
    match bytes {
        [] => None,
        [byte] => next_decimal(0, *byte),
        [b'0', _, ..] => None,
        _ => decimal_digits(bytes),
    }
}

/// The number of a hex digit or more, without a leading zero.
#[inline]
fn hex_number(bytes: &[u8]) -> Option<u64>
    ensures { result ≡ digits.number_of 16 bytes.now }
{
    match bytes {
        [] => None,
        [byte] => next_hex(0, *byte),
        [b'0', _, ..] => None,
        _ => hex_digits(bytes),
    }
}

/// The number below 2^64 whose decimal spelling the field is: digits without leading zeros, and `0`
/// for zero. None where it is no such spelling.
#[inline]
#[tactic(auto, using(crate::proofs::Numerals::decimal_is))]
pub fn read_decimal(field: &[u8]) -> Option<u64>
    ensures { result ≡ decimal_value field.now }
{
    decimal_number(field)
}

/// The number below 2^64 whose hex spelling the field is: `0x` and lower-case digits without leading
/// zeros, and `0x0` for zero. None where it is no such spelling.
#[inline]
#[tactic(auto, using(crate::proofs::Numerals::hex_is, crate::proofs::Numerals::hex_from_digits))]
pub fn read_hex(field: &[u8]) -> Option<u64>
    ensures { result ≡ hex_value field.now }
{
    match field {
        [b'0', b'x', bytes @ ..] => hex_number(bytes),
        _ => None,
    }
}
