//! Values printed.

ghost use Rattle.std.specs.Prelude.{◌≡◌, ◌<◌, ◌≤◌, [], ◌∷◌, ◌++◌, IsTrue, length, map, slice_index};
ghost use Rattle.std.specs.Fmt.{decimal};
ghost use Rattle.byteorder.specs.Endian.{big_number};
ghost use Rattle.hex.specs.Hex.{encode_lower, lower_digits};
ghost use Rattle.bd_codes.specs.TlvTable.{allows};
ghost use Rattle.bd_text.specs.Mac.{SpellsMac, mac_text};
ghost use Rattle.tlv_text.specs.Printed.{printed_value, shown};
ghost use Rattle.tlv_text.specs.Spelled.{Spells, SpellsHexadecimal, SpellsNumber, SpellsValue};
ghost use Rattle.tlv_text.specs.Values.{HasForm, HasWidth, kind_of};

use crate::forms::is_printable;
use crate::table::kind_of;
use arrayvec::ArrayString;
use bd_codes::Kind;
use bd_text::Mac;
use byteorder::{BigEndian, ByteOrder};
use itoa::Buffer;

/// Appends an ASCII character.
fn push_ascii(text: &mut ArrayString<510>, letter: u8)
    requires ascii { letter < 128 }
    requires room { length text.old.bytes < 510 }
    ensures { text.new.bytes ≡ text.old.bytes ++ letter ∷ [] }
{
    text.push(char::from(letter));
}

/// The byte as it stands in a text.
fn shown(byte: u8) -> u8
    ensures value { result ≡ shown byte }
    ensures ascii { result < 128 }
{
    if is_printable(byte) { byte } else { b'?' }
}

fn plain(value: &[u8]) -> ArrayString<510>
    requires { length value.now ≤ 255 }
    ensures { result.bytes ≡ map shown value.now }
{
    let mut text = ArrayString::new();
    for byte in value {
        push_ascii(&mut text, shown(*byte));
    }
    text
}

fn mac(value: &[u8]) -> ArrayString<510>
    requires { length value.now ≡ 6 }
    ensures printed { result.bytes ≡ mac_text value.now }
    ensures spelled { SpellsMac value.now result.bytes }
{
    let mut bytes = [0; 6];
    bytes.copy_from_slice(value);
    let mut text = ArrayString::new();
    text.push_str(Mac { bytes }.text().as_str());
    text
}

/// The number in decimal digits.
pub(crate) fn decimal(number: u16) -> ArrayString<510>
    ensures { result.bytes ≡ decimal number }
{
    let mut buffer = Buffer::new();
    let mut text = ArrayString::new();
    text.push_str(buffer.format(number));
    text
}

fn byte(value: &[u8]) -> ArrayString<510>
    requires { length value.now ≡ 1 }
    ensures printed { result.bytes ≡ decimal (big_number 1 value.now) }
    ensures spelled { SpellsNumber 1 value.now result.bytes }
{
    decimal(u16::from(value[0]))
}

fn word(value: &[u8]) -> ArrayString<510>
    requires { length value.now ≡ 2 }
    ensures printed { result.bytes ≡ decimal (big_number 2 value.now) }
    ensures spelled { SpellsNumber 2 value.now result.bytes }
{
    decimal(BigEndian::read_u16(value))
}

/// The hexadecimal digit of a value below 16.
fn digit(value: u8) -> u8
    requires { value < 16 }
    ensures digit { result ≡ slice_index lower_digits value }
    ensures ascii { result < 128 }
{
    b"0123456789abcdef"[usize::from(value)]
}

fn hexadecimal(value: &[u8]) -> ArrayString<510>
    requires { length value.now ≤ 255 }
    ensures printed { result.bytes ≡ encode_lower value.now }
    ensures spelled { SpellsHexadecimal value.now result.bytes }
{
    let mut text = ArrayString::new();
    for byte in value {
        push_ascii(&mut text, digit(byte / 16));
        push_ascii(&mut text, digit(byte % 16));
    }
    text
}

fn print(kind: Kind, value: &[u8]) -> ArrayString<510>
    requires width { HasWidth kind (length value.now) }
    requires short { length value.now ≤ 255 }
    ensures printed { result.bytes ≡ printed_value kind value.now }
    ensures spelled { HasForm kind value.now → SpellsValue kind value.now result.bytes }
{
    match kind {
        Kind::Text | Kind::Date | Kind::Letters => plain(value),
        Kind::Mac => mac(value),
        Kind::Byte => byte(value),
        Kind::Word => word(value),
        _ => hexadecimal(value),
    }
}

/// Prints the value of a field of the code, in 0 to 510 ASCII characters.
///
/// A text, a date and a country stand as they are, with `?` for each byte that is no printable ASCII
/// character. An Ethernet address stands in six pairs of upper-case hexadecimal digits with `:`
/// between each two, and a number of one byte or two in decimal digits. Every other value, and one of
/// a code that is not known, stands in lower-case hexadecimal digits, two a byte.
///
/// The value has a length that the table of codes allows, and at most 255 bytes, as many as a field
/// can hold.
pub fn value_text(code: u8, value: &[u8]) -> ArrayString<510>
    requires allowed { IsTrue (allows code (length value.now)) }
    requires short { length value.now ≤ 255 }
    ensures printed { result.bytes ≡ printed_value (kind_of code) value.now }

    // So `parse_value` gives the value back where a text can spell it.
    ensures spelled { HasForm (kind_of code) value.now → Spells code value.now result.bytes }
{
    print(kind_of(code), value)
}
