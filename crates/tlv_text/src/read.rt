//! Values read.

ghost use Rattle.std.specs.Prelude.{◌≡◌, ◌/◌, ℕ, List, length, Some, IfSome, IsSome, OnSome};
ghost use Rattle.std.specs.Option.{IsSomeAnd};
ghost use Rattle.bd_text.specs.Mac.{SpellsMac};
ghost use Rattle.tlv_text.specs.Spelled.{Spells, SpellsHexadecimal, SpellsNumber, SpellsPairs, SpellsPlainly, SpellsValue, WritesNumber};

use crate::forms::has_form;
use crate::print::decimal;
use crate::table::{allows, kind_of};
use arrayvec::ArrayVec;
use bd_codes::Kind;
use bd_text::Mac;
use byteorder::{BigEndian, ByteOrder};

fn plain(text: &[u8]) -> Option<ArrayVec<u8, 255>>
    ensures sound { IfSome result (λ value. SpellsPlainly value.items text.now) }
    ensures only { (value : List ℕ) → SpellsPlainly value text.now
        → IsSomeAnd result (λ v. v.items ≡ value) }
{
    ArrayVec::try_from(text).ok()
}

fn mac(text: &[u8]) -> Option<ArrayVec<u8, 255>>
    ensures sound { IfSome result (λ value. SpellsMac value.items text.now) }
    ensures only { (value : List ℕ) → SpellsMac value text.now
        → IsSomeAnd result (λ v. v.items ≡ value) }
{
    let mac = Mac::parse(text)?;
    plain(&mac.bytes)
}

/// The number that the digits write, which may stand behind a plus and zeros.
fn parsed(text: &[u8]) -> Option<u16>
    ensures { (n : ℕ) → WritesNumber 2 n text.now → result ≡ Some n }
{
    str::from_utf8(text).ok()?.parse().ok()
}

/// The number that is written so, without a sign and leading zeros.
fn number(text: &[u8]) -> Option<u16>
    ensures sound { IfSome result (λ n. WritesNumber 2 n text.now) }
    ensures only { (n : ℕ) → WritesNumber 2 n text.now → result ≡ Some n }
{
    let number = parsed(text)?;
    if decimal(number).as_str().as_bytes() != text {
        return None;
    }
    Some(number)
}

fn byte(text: &[u8]) -> Option<ArrayVec<u8, 255>>
    ensures sound { IfSome result (λ value. SpellsNumber 1 value.items text.now) }
    ensures only { (value : List ℕ) → SpellsNumber 1 value text.now
        → IsSomeAnd result (λ v. v.items ≡ value) }
{
    let byte = u8::try_from(number(text)?).ok()?;
    plain(&[byte])
}

fn word(text: &[u8]) -> Option<ArrayVec<u8, 255>>
    ensures sound { IfSome result (λ value. SpellsNumber 2 value.items text.now) }
    ensures only { (value : List ℕ) → SpellsNumber 2 value text.now
        → IsSomeAnd result (λ v. v.items ≡ value) }
{
    let mut bytes = [0; 2];
    BigEndian::write_u16(&mut bytes, number(text)?);
    plain(&bytes)
}

/// Fills `bytes`, which has one for each two digits. `None` where the text is no pairs of hexadecimal
/// digits.
fn fill(bytes: &mut [u8], text: &[u8]) -> Option<()>
    requires { length bytes.old ≡ length text.now / 2 }
    ensures sound { OnSome result (SpellsPairs bytes.new text.now) }
    ensures only { (value : List ℕ) → SpellsPairs value text.now
        → IsSome result × (bytes.new ≡ value) }
{
    hex::decode_to_slice(text, bytes).ok()
}

fn hexadecimal(text: &[u8]) -> Option<ArrayVec<u8, 255>>
    ensures sound { IfSome result (λ value. SpellsHexadecimal value.items text.now) }
    ensures only { (value : List ℕ) → SpellsHexadecimal value text.now
        → IsSomeAnd result (λ v. v.items ≡ value) }
{
    let count = text.len() / 2;
    if count > 255 {
        return None;
    }
    let mut bytes = [0; 255];
    let bytes = &mut bytes[..count];
    fill(bytes, text)?;
    plain(bytes)
}

fn read(kind: Kind, text: &[u8]) -> Option<ArrayVec<u8, 255>>
    ensures sound { IfSome result (λ value. SpellsValue kind value.items text.now) }
    ensures only { (value : List ℕ) → SpellsValue kind value text.now
        → IsSomeAnd result (λ v. v.items ≡ value) }
{
    match kind {
        Kind::Text | Kind::Date | Kind::Letters => plain(text),
        Kind::Mac => mac(text),
        Kind::Byte => byte(text),
        Kind::Word => word(text),
        _ => hexadecimal(text),
    }
}

/// The value that the text spells for a field of the code, of 0 to 255 bytes. `None` exactly where it
/// spells none.
///
/// A text is printable ASCII characters, the space among them. A date and a time of day are
/// `MM/DD/YYYY HH:MM:SS` with a digit for each letter, by no calendar. A country is two letters. An
/// Ethernet address is six pairs of hexadecimal digits with `:` between each two, and a number of one
/// byte or two stands in decimal digits without a sign and leading zeros. Every other value, and one
/// of a code that is not known, stands in hexadecimal digits, two a byte. Letters are read in either
/// case. The table of codes must allow the value's length.
pub fn parse_value(code: u8, text: &[u8]) -> Option<ArrayVec<u8, 255>>
    ensures sound { IfSome result (λ value. Spells code value.items text.now) }
    ensures only { (value : List ℕ) → Spells code value text.now
        → IsSomeAnd result (λ v. v.items ≡ value) }
{
    let kind = kind_of(code);
    let value = read(kind, text)?;
    if !allows(code, value.len()) || !has_form(kind, &value) {
        return None;
    }
    Some(value)
}
