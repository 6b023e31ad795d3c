//! Fields from bytes.

ghost use Rattle.std.specs.Prelude.{◌≡◌, ◌<◌, ◌≤◌, ◌+◌, ◌-◌, ◌*◌, ◌/◌, ◌↔◌, ◌++◌, ◌∷◌, List, length, take, drop, slice_index, vec_len, vec_capacity, IsErr, IfOk, OnOk, IfSome, MatchResult, Ok, Err, None, Some, option_map};
ghost use Rattle.byteorder.specs.Endian.{big_number};
ghost use Rattle.bd_bytes.specs.Cursor.{passed};
ghost use Rattle.tlvinfo.specs.TlvInfo.{Field, field_bytes, Tlv};
ghost use Rattle.tlvinfo.specs.Reading.{size_at, total_at, checksum_at, field_at, reading, Gives};
ghost use Rattle.tlvinfo.specs.View.{fields_of, entry_field};
ghost use Rattle.tlvinfo.specs.RawView.{field_of, IsAnswer};

use crate::codes::{CHECKSUM, is_allowed};
use crate::fault::{TlvFault, TlvKind};
use crate::info::{Entry, Info, is_repeated};
use crate::lengths::{GREATEST_TOTAL, HEADER};
use arrayvec::ArrayVec;
use bd_bytes::{Cursor, Short, crc32};
use byteorder::{BigEndian, ByteOrder};
use std::alloc::Global;

/// The header as it stands, right or wrong.
#[derive(Clone, Copy)]
struct Header<'a> {
    signature: &'a [u8],
    version: u8,
    total: u16,
}

fn read_header<'a>(bytes: &'a [u8]) -> Result<Header<'a>, Short>
    ensures short { IsErr result ↔ (length bytes.now < 11) }
    ensures signature { IfOk result (λ h. h.signature.now ≡ take 8 bytes.now) }
    ensures version { IfOk result (λ h. h.version ≡ slice_index bytes.now 8) }
    ensures total { IfOk result (λ h. h.total ≡ big_number 2 (drop 9 bytes.now)) }
{
    let mut cursor = Cursor::new(bytes);
    let signature = cursor.take(8)?;
    let version = cursor.take(1)?;
    let total = cursor.be16()?;
    Ok(Header {
        signature,
        version: version[0],
        total,
    })
}

/// How many bytes follow the header.
#[tactic(auto, unfolding(crate::specs::Reading::total_at))]
fn total_length(bytes: &[u8]) -> Result<usize, TlvKind>
    ensures exact { result ≡ total_at bytes.now }
    ensures inside { IfOk result (λ total. (total ≤ 2037) × (11 + total ≤ length bytes.now)) }
{
    let Ok(header) = read_header(bytes) else {
        return Err(TlvKind::NotTlv);
    };
    if header.signature != b"TlvInfo\0".as_slice() {
        return Err(TlvKind::NotTlv);
    }
    if header.version != 1 {
        return Err(TlvKind::Version(header.version));
    }
    let total = header.total as usize;
    if total > GREATEST_TOTAL || total > bytes.len() - HEADER {
        return Err(TlvKind::Length {
            total: total as u32,
            given: bytes.len() as u64,
        });
    }
    Ok(total)
}

/// A field as it stands.
#[derive(Clone, Copy)]
pub(crate) struct RawField<'a> {
    pub(crate) code: u8,
    pub(crate) value: &'a [u8],
}

fn raw_field<'a>(cursor: &mut Cursor<'a>) -> Result<RawField<'a>, Short>
    ensures cut { IsErr result ↔ (length cursor.old.left < 2 + size_at cursor.old.left) }
    ensures stands { IfOk result (λ f. cursor.old.left ≡ field_bytes (field_of f) ++ cursor.new.left) }
    ensures moved { IfOk result (λ f. cursor.new ≡ passed (2 + length f.value.now) cursor.old) }
    ensures small { IfOk result (λ f. length f.value.now < 256) }
{
    let head = cursor.take(2)?;
    let value = cursor.take(head[1] as usize)?;
    Ok(RawField {
        code: head[0],
        value,
    })
}

/// Tests the checksum, whose field begins at the place and ends the whole.
#[tactic(auto, unfolding(crate::specs::Reading::checksum_at))]
fn test_checksum(whole: &[u8], at: usize) -> Result<(), TlvKind>
    requires inside { at + 6 ≤ length whole.now }
    requires small { length whole.now ≤ 2048 }
    ensures { MatchResult result (λ _. checksum_at whole.now at (drop (at + 2) whole.now) ≡ Ok None) (λ kind. checksum_at whole.now at (drop (at + 2) whole.now) ≡ Err kind) }
{
    if at + 6 < whole.len() {
        return Err(TlvKind::AfterCrc { at: at as u32 + 6 });
    }
    let kept = BigEndian::read_u32(&whole[at + 2..]);
    let computed = crc32(&whole[..at + 2]);
    if kept != computed {
        return Err(TlvKind::Crc { kept, computed });
    }
    Ok(())
}

/// The field where the cursor stands, after those before it, or none at the checksum that ends the fields.
fn next_field<'a>(
    whole: &[u8],
    before: &[Entry],
    cursor: &mut Cursor<'a>,
) -> Result<Option<RawField<'a>>, TlvKind>
    requires inside { cursor.old.place + length cursor.old.left ≡ length whole.now }
    requires here { cursor.old.left ≡ drop cursor.old.place whole.now }
    requires small { length whole.now ≤ 2048 }
    ensures exact { IsAnswer result (field_at whole.now cursor.old.place (fields_of before.now) cursor.old.left) }
    ensures moved { IfOk result (λ next. IfSome next (λ f. cursor.new ≡ passed (2 + length f.value.now) cursor.old)) }
    ensures size { IfOk result (λ next. IfSome next (λ f. (2 + length f.value.now ≤ length cursor.old.left) × (length f.value.now < 256))) }
{
    let at = cursor.place();
    if cursor.left() == 0 {
        return Err(TlvKind::NoCrc);
    }
    let Ok(field) = raw_field(cursor) else {
        return Err(TlvKind::Cut { at: at as u32 });
    };
    if !is_allowed(field.code, field.value.len()) {
        return Err(TlvKind::BadLength {
            code: field.code,
            length: field.value.len() as u8,
        });
    }
    if field.code == CHECKSUM {
        test_checksum(whole, at)?;
        return Ok(None);
    }
    if is_repeated(before, field.code) {
        return Err(TlvKind::Repeated { code: field.code });
    }
    Ok(Some(field))
}

impl RawField<'_> {
    /// The field as it is kept.
    pub(crate) fn entry(&self) -> Entry
        requires { length self.now.value.now < 256 }
        ensures { entry_field result ≡ record { code = self.now.code; value = self.now.value.now } }
    {
        let mut value = ArrayVec::new();
        value.try_extend_from_slice(self.value).unwrap();
        Entry {
            code: self.code,
            value,
        }
    }
}

fn read(alloc: Global, bytes: &[u8]) -> Result<Info, TlvFault>
    ensures { Gives result (reading bytes.now) }
{
    let total = total_length(bytes)?;
    let whole = &bytes[..HEADER + total];
    let mut cursor = Cursor::new(whole);
    let _header = cursor.take(HEADER).unwrap();
    let mut entries: Vec<Entry> = Vec::with_capacity(alloc, total / 2)?;
    while let Some(field) = next_field(whole, &entries, &mut cursor)? {
        entries.push(field.entry()).unwrap();
    }
    Ok(Info::new(entries))
}

/// Reads the fields of TlvInfo data at the front of the bytes. Bytes after the total length mean nothing.
///
/// Answers the first fault from left to right: those of the header, then field by field what [`TlvKind`] lists. Memory
/// is taken once, after the header is read and before the first field.
///
/// Source: ONIE design specification, board EEPROM information format. That a known code stands once at most, but for
/// vendor extensions, and the limit of 2,048 bytes are this project's.
pub fn decode(alloc: Global, bytes: &[u8]) -> Result<Info, TlvFault>
    // What is read stands so in the bytes.
    ensures found { IfOk result (Tlv bytes.now) }
    // What stands so is read, unless memory runs out.
    ensures only { (fields : List Field) → Tlv bytes.now fields → Gives result (Ok fields) }
    // Which fault it is: the first.
    ensures exact { Gives result (reading bytes.now) }
{
    read(alloc, bytes)
}
