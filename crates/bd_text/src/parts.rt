//! Numbers written one after another, with a mark between each two.

ghost use Rattle.std.specs.Prelude.{◌≡◌, ℕ, ◌^◌, ◌<◌, ◌≤◌, ◌==◌, if◌then◌else◌, ◌+◌, List, [], ◌∷◌, ◌++◌, length, Some, IfSome, All};
ghost use Rattle.std.specs.Option.{IsSomeAnd, SomeIff};
ghost use Rattle.std.specs.List.{AllZip};
ghost use Rattle.bd_text.specs.Digits.{SpellsHex};
ghost use Rattle.bd_text.specs.Group.{SpellsGroup};
ghost use Rattle.bd_text.specs.Octet.{SpellsOctet};
ghost use Rattle.bd_text.specs.Parts.{SpellsIn, SpellsJoined, parts_of};
ghost use Rattle.std.specs.Char.{digit_value};

use crate::digits::{number, push_ascii};
use arrayvec::{ArrayString, ArrayVec};

/// How each number is written.
#[derive(Clone, Copy)]
pub(crate) enum Form {
    /// Two hexadecimal digits.
    Pair,
    /// A decimal number below 256, without leading zeros.
    Octet,
    /// One to four hexadecimal digits.
    Group,
}

/// The byte of two hexadecimal digits.
fn pair(part: &[u8]) -> Option<u16>
    ensures sound { IfSome result (λ n. SpellsHex 2 n part.now) }
    ensures only { (n : ℕ) → SpellsHex 2 n part.now → result ≡ Some n }
{
    if part.len() != 2 {
        return None;
    }
    let byte = number(part, 16)?;
    Some(byte as u16)
}

/// The number below 256 of decimal digits without leading zeros.
fn octet(part: &[u8]) -> Option<u16>
    ensures sound { IfSome result (λ n. SpellsOctet n part.now) }
    ensures only { (n : ℕ) → SpellsOctet n part.now → result ≡ Some n }
{
    if part.is_empty() || part.len() > 3 || (part[0] == b'0' && part.len() > 1) {
        return None;
    }
    let octet = number(part, 10)?;
    if octet > 255 {
        return None;
    }
    Some(octet as u16)
}

/// The number of one to four hexadecimal digits.
fn group(part: &[u8]) -> Option<u16>
    ensures sound { IfSome result (λ n. SpellsGroup n part.now) }
    ensures only { (n : ℕ) → SpellsGroup n part.now → result ≡ Some n }
{
    if part.is_empty() || part.len() > 4 {
        return None;
    }
    let group = number(part, 16)?;
    Some(group as u16)
}

impl Form {
    /// The number of a part in this form.
    fn number(self, part: &[u8]) -> Option<u16>
        ensures sound { IfSome result (λ n. SpellsIn self n part.now) }
        ensures only { (n : ℕ) → SpellsIn self n part.now → result ≡ Some n }
    {
        match self {
            Form::Pair => pair(part),
            Form::Octet => octet(part),
            Form::Group => group(part),
        }
    }
}

/// The numbers of the parts between marks, each written in the form. `None` where a part is not, or
/// where there are more than eight.
fn numbers(text: &[u8], mark: u8, form: Form) -> Option<ArrayVec<u16, 8>>
    ensures sound { IfSome result (λ v. AllZip (SpellsIn form) v.items (parts_of mark text.now)) }
    ensures only { (ns : List ℕ) → length ns ≤ 8
        → AllZip (SpellsIn form) ns (parts_of mark text.now) → IsSomeAnd result (λ v. v.items ≡ ns) }
{
    let mut numbers = ArrayVec::new();
    for part in text.split(move |byte| *byte == mark) {
        if numbers.is_full() {
            return None;
        }
        numbers.push(form.number(part)?);
    }
    Some(numbers)
}

/// The numbers between marks, none for an empty text. `None` where a part is not written in the
/// form, or where there are more than eight.
pub(crate) fn listed(text: &[u8], mark: u8, form: Form) -> Option<ArrayVec<u16, 8>>
    requires apart { 16 ≤ digit_value mark }
    requires filled { (n : ℕ) (part : List ℕ) → SpellsIn form n part → 0 < length part }
    ensures sound { IfSome result (λ v. SpellsJoined (SpellsIn form) mark v.items text.now) }
    ensures only { (ns : List ℕ) → length ns ≤ 8 → SpellsJoined (SpellsIn form) mark ns text.now
        → IsSomeAnd result (λ v. v.items ≡ ns) }
{
    if text.is_empty() {
        return Some(ArrayVec::new());
    }
    let numbers = numbers(text, mark, form)?;
    Some(numbers)
}

/// The numbers as `N` bytes, each of one number. `None` where there are not so many.
fn bytes<const N: usize>(numbers: &[u16]) -> Option<[u8; N]>
    requires { All (λ n. n < 256) numbers.now }
    ensures { SomeIff result (length numbers.now ≡ N) numbers.now }
{
    if numbers.len() != N {
        return None;
    }
    let mut bytes = [0; N];
    for (place, number) in numbers.iter().enumerate() {
        bytes[place] = *number as u8;
    }
    Some(bytes)
}

/// The `N` bytes that the parts between marks write in the form, which writes no other numbers than
/// bytes. `None` exactly where the text is no such spelling.
pub(crate) fn joined_bytes<const N: usize>(text: &[u8], mark: u8, form: Form) -> Option<[u8; N]>
    requires some { 0 < N }
    requires few { N ≤ 8 }
    requires apart { 16 ≤ digit_value mark }
    requires bytes { (n : ℕ) (part : List ℕ) → SpellsIn form n part → n < 256 }
    ensures size { IfSome result (λ bytes. length bytes ≡ N) }
    ensures sound { IfSome result (λ bytes. SpellsJoined (SpellsIn form) mark bytes text.now) }
    ensures only { (bytes : List ℕ) → length bytes ≡ N
        → SpellsJoined (SpellsIn form) mark bytes text.now → result ≡ Some bytes }
{
    let numbers = numbers(text, mark, form)?;
    let bytes = bytes(&numbers)?;
    Some(bytes)
}

/// Appends the mark that stands before each part but the first.
pub(crate) fn push_mark(text: &mut ArrayString<40>, place: usize, mark: u8)
    requires ascii { mark < 128 }
    requires room { length text.old.bytes + 1 ≤ 40 }
    ensures { text.new.bytes
        ≡ (if place == 0 then text.old.bytes else text.old.bytes ++ mark ∷ []) }
{
    if place > 0 {
        push_ascii(text, mark);
    }
}
