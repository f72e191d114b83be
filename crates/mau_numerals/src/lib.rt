//! Numerals: decimal digits without a leading zero, or `0`.
#![tactic(auto)]

ghost use Rattle.std.specs.Prelude.{◌≡◌, ◌-◌, ◌^◌, IsTrue};
ghost use Rattle.std.specs.Char.{is_ascii_digit};
ghost use Rattle.std.specs.List.{list_all};
ghost use Rattle.mau_numerals.specs.Numerals;
ghost use Rattle.mau_numerals.specs.Numerals.{number_up_to};

pub mod laws;

/// Whether more than one byte is there, and the first is a zero.
fn has_leading_zero(bytes: &[u8]) -> bool
    ensures { result ≡ Numerals.has_leading_zero bytes.now }
{
    bytes.len() > 1 && bytes[0] == b'0'
}

/// Whether each byte is a decimal digit.
fn are_digits(bytes: &[u8]) -> bool
    ensures { result ≡ list_all is_ascii_digit bytes.now }
{
    bytes.iter().all(|byte| byte.is_ascii_digit())
}

/// Whether the bytes are a numeral.
pub fn is_numeral(bytes: &[u8]) -> bool
    ensures { result ≡ Numerals.is_numeral bytes.now }
{
    !bytes.is_empty() && !has_leading_zero(bytes) && are_digits(bytes)
}

/// Digits as text.
fn as_text(digits: &[u8]) -> &str
    requires { IsTrue (list_all is_ascii_digit digits.now) }
    ensures { result.now ≡ digits.now }
{
    match std::str::from_utf8(digits) {
        Ok(text) => text,
        Err(_) => unreachable!(),
    }
}

/// The number that the bytes are, if they are a numeral of at most `limit`.
pub fn small_number(bytes: &[u8], limit: u8) -> Option<u8>
    ensures { result ≡ number_up_to limit bytes.now }
{
    if !is_numeral(bytes) {
        return None;
    }
    match as_text(bytes).parse::<u8>() {
        Ok(number) => { if number <= limit { Some(number) } else { None } }
        Err(_) => None,
    }
}

/// The number that the bytes are, if they are a numeral of at most 128 bits.
pub fn great_number(bytes: &[u8]) -> Option<u128>
    ensures { result ≡ number_up_to (2 ^ 128 - 1) bytes.now }
{
    if !is_numeral(bytes) {
        return None;
    }
    match as_text(bytes).parse::<u128>() {
        Ok(number) => Some(number),
        Err(_) => None,
    }
}

/// Whether the bytes are a numeral of at most `limit`.
pub fn is_up_to(bytes: &[u8], limit: u8) -> bool
    ensures { result ≡ Numerals.is_up_to limit bytes.now }
{
    small_number(bytes, limit).is_some()
}
