//! Globally unique identifiers.

ghost use Rattle.std.specs.Prelude.{◌≡◌, ℕ, ◌^◌, ◌<◌, ◌≤◌, ◌+◌, List, [], ◌∷◌, ◌++◌, length, Some, IfSome};
ghost use Rattle.std.specs.Option.{IsSomeAnd};
ghost use Rattle.bd_text.specs.Digits.{AreBytes, SpellsHex, numeral};
ghost use Rattle.bd_text.specs.declared.digits.Case.TheVariants.{Lower};
ghost use Rattle.bd_text.specs.Guid.{SpellsFields, SpellsGuid, fields_text, guid_fields, guid_text};
ghost use Rattle.bd_text.specs.declared.guid.Fields.{Fields};
ghost use Rattle.bd_text.specs.Fields.{FieldsFit, written};
ghost use Rattle.bd_text.specs.Marks.{dash};

use crate::digits::{Case, number, push_ascii, push_numeral};
use crate::endian::read_u48;
use arrayvec::ArrayString;
use byteorder::{BigEndian, ByteOrder, LittleEndian};

/// A globally unique identifier (UUID, RFC 9562) as EFI keeps it: sixteen bytes, of which the first
/// three fields have their low byte first (UEFI 2.10, appendix A).
#[derive(Clone, Copy, Debug, PartialEq, Eq)]
pub struct Guid {
    /// The bytes as EFI keeps them.
    pub bytes: [u8; 16],
}

/// The fields as numbers (RFC 9562, section 4): the last is of 48 bits.
#[derive(Clone, Copy)]
struct Fields {
    low: u32,
    middle: u16,
    high: u16,
    clock: u16,
    node: u64,
}

/// The number of the hexadecimal digits, of which there are so many.
fn field(text: &[u8], count: usize) -> Option<u64>
    requires { count ≤ 12 }
    ensures sound { IfSome result (λ n. SpellsHex count n text.now) }
    ensures only { (n : ℕ) → SpellsHex count n text.now → IsSomeAnd result (λ m. m ≡ n) }
    ensures bound { IfSome result (λ n. n < 16 ^ count) }
{
    if text.len() != count {
        return None;
    }
    let number = number(text, 16)?;
    Some(number)
}

/// The number of the field that a dash ends, and what follows the dash.
fn field_before_dash(text: &[u8], count: usize) -> Option<(u64, &[u8])>
    requires { count ≤ 12 }
    ensures sound { IfSome result (λ r. (part : List ℕ) × SpellsHex count r.0 part
        × (text.now ≡ part ++ dash ∷ r.1.now)) }
    ensures only { (n : ℕ) (part rest : List ℕ) → SpellsHex count n part
        → text.now ≡ part ++ dash ∷ rest
        → IsSomeAnd result (λ r. (r.0 ≡ n) × (r.1.now ≡ rest)) }
    ensures bound { IfSome result (λ r. r.0 < 16 ^ count) }
{
    if text.len() <= count || text[count] != b'-' {
        return None;
    }
    let (digits, rest) = text.split_at(count);
    let number = field(digits, count)?;
    Some((number, &rest[1..]))
}

/// Appends a dash and a field.
fn push_field(text: &mut ArrayString<40>, count: usize, number: u64)
    requires room { length text.old.bytes + 1 + count ≤ 40 }
    ensures bytes { text.new.bytes ≡ (text.old.bytes ++ dash ∷ []) ++ numeral Lower 16 count number }
    ensures len { length text.new.bytes ≡ length text.old.bytes + 1 + count }
{
    push_ascii(text, b'-');
    push_numeral(text, Case::Lower, 16, count, number);
}

/// The fields of sixteen bytes.
fn fields_of(bytes: &[u8]) -> Fields
    requires { length bytes.now ≡ 16 }
    ensures value { written result ≡ guid_fields bytes.now }
    ensures fit { FieldsFit result }
{
    Fields {
        low: LittleEndian::read_u32(bytes),
        middle: LittleEndian::read_u16(&bytes[4..]),
        high: LittleEndian::read_u16(&bytes[6..]),
        clock: BigEndian::read_u16(&bytes[8..]),
        node: read_u48(&bytes[10..]),
    }
}

impl Fields {
    fn parse(text: &[u8]) -> Option<Fields>
        ensures sound { IfSome result (λ f. SpellsFields (written f) text.now) }
        ensures only { (f : Fields) → SpellsFields (written f) text.now
            → IsSomeAnd result (λ g. g ≡ f) }
        ensures bound { IfSome result (λ f. f.node < 2 ^ 48) }
    {
        let (low, rest) = field_before_dash(text, 8)?;
        let (middle, rest) = field_before_dash(rest, 4)?;
        let (high, rest) = field_before_dash(rest, 4)?;
        let (clock, rest) = field_before_dash(rest, 4)?;
        let node = field(rest, 12)?;
        Some(Fields {
            low: low as u32,
            middle: middle as u16,
            high: high as u16,
            clock: clock as u16,
            node,
        })
    }

    fn bytes(self) -> [u8; 16]
        requires { self.node < 2 ^ 48 }
        ensures bytes { AreBytes 16 result }
        ensures fields { guid_fields result ≡ written self }
    {
        let mut bytes = [0; 16];
        LittleEndian::write_u32(&mut bytes, self.low);
        LittleEndian::write_u16(&mut bytes[4..], self.middle);
        LittleEndian::write_u16(&mut bytes[6..], self.high);
        BigEndian::write_u16(&mut bytes[8..], self.clock);
        BigEndian::write_u48(&mut bytes[10..], self.node);
        bytes
    }

    fn text(self) -> ArrayString<40>
        requires { FieldsFit self }
        ensures printed { result.bytes ≡ fields_text (written self) }
        ensures spelled { SpellsFields (written self) result.bytes }
    {
        let mut text = ArrayString::new();
        push_numeral(&mut text, Case::Lower, 16, 8, u64::from(self.low));
        push_field(&mut text, 4, u64::from(self.middle));
        push_field(&mut text, 4, u64::from(self.high));
        push_field(&mut text, 4, u64::from(self.clock));
        push_field(&mut text, 12, self.node);
        text
    }
}

fn text_of(bytes: &[u8]) -> ArrayString<40>
    requires { length bytes.now ≡ 16 }
    ensures printed { result.bytes ≡ guid_text bytes.now }
    ensures spelled { SpellsGuid bytes.now result.bytes }
{
    fields_of(bytes).text()
}

impl Guid {
    /// Reads fields of 8, 4, 4, 4 and 12 hexadecimal digits with `-` between each two, letters in
    /// either case. `None` exactly where the text is not so.
    pub fn parse(text: &[u8]) -> Option<Guid>
        ensures sound { IfSome result (λ guid. SpellsGuid guid.bytes text.now) }
        ensures only { (bytes : List ℕ) → SpellsGuid bytes text.now
            → result ≡ Some (record { bytes = bytes }) }
    {
        let fields = Fields::parse(text)?;
        Some(Guid {
            bytes: fields.bytes(),
        })
    }

    /// Prints fields of 8, 4, 4, 4 and 12 hexadecimal digits with `-` between each two, letters in
    /// lower case: 36 bytes.
    pub fn text(&self) -> ArrayString<40>
        ensures printed { result.bytes ≡ guid_text self.now.bytes }
        ensures spelled { SpellsGuid self.now.bytes result.bytes }
    {
        text_of(&self.bytes)
    }
}
