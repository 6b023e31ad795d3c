//! Constants.

ghost use Rattle.std.specs.Prelude.{◌≡◌, ◌∷◌, ◌+◌, ◌*◌, ◌^◌, ◌<◌, ◌≤◌, ℕ, MatchOption, IfSome, pos, neg_ℤ, length};
ghost use Rattle.std.specs.Char.{digit_value};
ghost use Rattle.sh_arith.specs.Constant.{digits, begins_hex, hex_digits, leading_zero, constant};
ghost use Rattle.sh_arith.specs.Text.{Follows};
ghost use Rattle.sh_arith.specs.Numeral.{Holds, Reads, ReadsConstant};
ghost use Rattle.sh_arith.specs.Number.{fitting};

use crate::text::first;

/// A number, `None` past 64 bits, and what follows it.
#[derive(Clone, Copy)]
pub(crate) struct Numeral<'a> {
    pub(crate) number: Option<u64>,
    pub(crate) rest: &'a [u8],
}

// a digit at the front, and what follows it
fn digit(base: u32, text: &[u8]) -> Option<(u32, &[u8])>
    requires low { 2 ≤ base }
    requires high { base ≤ 16 }
    ensures none { MatchOption result ((n : ℕ) → digits base n text.now ≡ (n, text.now)) (λ _. Unit {0}) }
    ensures digit { MatchOption result (Unit {0}) (λ p. (n : ℕ) → digits base n text.now ≡ digits base (n * base + p.0) p.1.now) }
    ensures small { MatchOption result (Unit {0}) (λ p. p.0 < base) }
    ensures shorter { MatchOption result (Unit {0}) (λ p. length p.1.now < length text.now) }
{
    let (byte, rest) = first(text)?;
    let value = char::from(byte).to_digit(base)?;
    Some((value, rest))
}

// the number with one digit more
fn with_digit(number: Option<u64>, base: u32, digit: u32) -> Option<u64>
    requires { 2 ≤ base }
    ensures { (n : ℕ) → Holds number n → Holds result (n * base + digit) }
{
    number?
        .checked_mul(u64::from(base))?
        .checked_add(u64::from(digit))
}

// the number that digits write after those of this one
fn digits(base: u32, before: u32, text: &[u8]) -> Numeral<'_>
    requires low { 2 ≤ base }
    requires high { base ≤ 16 }
    ensures reads { Reads result (digits base before text.now) }
    ensures shorter { length result.rest.now ≤ length text.now }
{
    let mut number = Some(u64::from(before));
    let mut rest = text;
    'digits: loop {
        match digit(base, rest) {
            None => return Numeral { number, rest },
            Some((value, next)) => {
                number = with_digit(number, base, value);
                rest = next;
            }
        }
    }
}

// whether a hexadecimal digit stands at the front
fn begins_hex(text: &[u8]) -> bool
    ensures { result ≡ begins_hex text.now }
{
    match first(text) {
        None => false,
        Some((byte, _)) => byte.is_ascii_hexdigit(),
    }
}

// what follows an `x`, where a hexadecimal digit does
fn hex_digits(text: &[u8]) -> Option<&[u8]>
    ensures follows { Follows result (hex_digits text.now) }
    ensures shorter { IfSome result (λ rest. length rest.now < length text.now) }
{
    let (byte, rest) = first(text)?;
    if byte == b'x' && begins_hex(rest) {
        Some(rest)
    } else {
        None
    }
}

// what follows a leading zero
fn leading_zero(text: &[u8]) -> Numeral<'_>
    ensures reads { Reads result (leading_zero text.now) }
    ensures shorter { length result.rest.now ≤ length text.now }
{
    match hex_digits(text) {
        Some(hex) => digits(16, 0, hex),
        None => digits(8, 0, text),
    }
}

/// The constant at the front.
pub(crate) fn constant(text: &[u8]) -> Option<Numeral<'_>>
    ensures reads { ReadsConstant result (constant text.now) }
    ensures shorter { IfSome result (λ numeral. length numeral.rest.now < length text.now) }
{
    let (byte, rest) = first(text)?;
    if byte == b'0' {
        return Some(leading_zero(rest));
    }
    let value = char::from(byte).to_digit(10)?;
    Some(digits(10, value, rest))
}

/// The number as a signed one, where it fits.
pub(crate) fn positive(number: Option<u64>) -> Option<i64>
    ensures { (n : ℕ) → Holds number n → result ≡ fitting (pos n) }
{
    let number = number?;
    if number > i64::MAX as u64 {
        return None;
    }
    Some(number as i64)
}

/// The number below zero, where it fits.
pub(crate) fn negative(number: Option<u64>) -> Option<i64>
    ensures { (n : ℕ) → Holds number n → result ≡ fitting (neg_ℤ (pos n)) }
{
    let number = number?;
    if number > 1 << 63 {
        return None;
    }
    if number == 1 << 63 {
        return Some(i64::MIN);
    }
    Some(-(number as i64))
}
