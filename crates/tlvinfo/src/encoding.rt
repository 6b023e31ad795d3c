//! Bytes from fields.

ghost use Rattle.std.specs.Prelude.{◌≡◌, ◌<◌, ◌≤◌, ◌+◌, ◌↔◌, ◌++◌, List, ℕ, length, take, IsErr, IfOk, OnOk, OnErr, IsOkAnd};
ghost use Rattle.tlvinfo.specs.TlvInfo.{field_bytes, joined, header, spelling, Tlv};
ghost use Rattle.tlvinfo.specs.Encoding.{overwritten, ending, BeginSame};
ghost use Rattle.tlvinfo.specs.View.{entry_field, fields_of};

use crate::codes::CHECKSUM;
use crate::fault::TooLong;
use crate::info::{Entry, Info};
use crate::lengths::{CHECKSUM_FIELD, FIELD_HEAD, HEADER, total_with};
use bd_bytes::crc32;
use byteorder::{BigEndian, ByteOrder};

fn write_header(out: &mut [u8], total: u16)
    requires { 11 ≤ length out.old }
    ensures { out.new ≡ overwritten (header total) out.old }
{
    out[..8].copy_from_slice(b"TlvInfo\0".as_slice());
    out[8] = 1;
    BigEndian::write_u16(&mut out[9..], total);
}

fn write_field(out: &mut [u8], entry: &Entry)
    requires { 2 + length entry.now.value.items ≤ length out.old }
    ensures { out.new ≡ overwritten (field_bytes (entry_field entry.now)) out.old }
{
    let value = entry.value.as_slice();
    out[0] = entry.code;
    out[1] = value.len() as u8;
    out[FIELD_HEAD..FIELD_HEAD + value.len()].copy_from_slice(value);
}

fn write_fields(out: &mut [u8], entries: &[Entry])
    requires { length (joined (fields_of entries.now)) ≤ length out.old }
    ensures { out.new ≡ overwritten (joined (fields_of entries.now)) out.old }
{
    let mut at = 0;
    for entry in entries {
        write_field(&mut out[at..], entry);
        at += FIELD_HEAD + entry.value.len();
    }
}

/// Writes the checksum's field behind the bytes that end at the place.
fn write_checksum(out: &mut [u8], at: usize)
    requires { at + 6 ≤ length out.old }
    ensures { out.new ≡ overwritten (take at out.old ++ ending (take at out.old)) out.old }
{
    out[at] = CHECKSUM;
    out[at + 1] = 4;
    let checksum = crc32(&out[..at + 2]);
    BigEndian::write_u32(&mut out[at + 2..], checksum);
}

fn write(out: &mut [u8], entries: &[Entry], total: usize)
    requires fits { total ≡ length (joined (fields_of entries.now)) + 6 }
    requires room { 11 + total ≤ length out.old }
    requires small { total ≤ 2037 }
    ensures { out.new ≡ overwritten (spelling (fields_of entries.now)) out.old }
{
    write_header(out, total as u16);
    write_fields(&mut out[HEADER..], entries);
    write_checksum(out, HEADER + total - CHECKSUM_FIELD);
}

/// Writes the fields as TlvInfo data at the front of `out`, and answers how many bytes they are. The bytes behind
/// stay.
///
/// `TooLong` exactly where the whole, that is the header, the fields and the checksum's field, passes 2,048 bytes;
/// `out` is then unchanged. Takes no memory.
///
/// Source: ONIE design specification, board EEPROM information format. The limit is this project's.
pub fn encode(info: &Info, out: &mut [u8; 2048]) -> Result<usize, TooLong>
    ensures too_long { IsErr result ↔ (2048 < length (spelling info.now)) }
    ensures unchanged { OnErr result (out.new ≡ out.old) }
    ensures size { IfOk result (λ size. size ≡ length (spelling info.now)) }
    ensures fits { IfOk result (λ size. size ≤ 2048) }
    ensures written { OnOk result (out.new ≡ overwritten (spelling info.now) out.old) }
    // What is written is read as these fields.
    ensures reads { IfOk result (λ size. Tlv (take size out.new) info.now) }
    // What is read as these fields is written, up to its total length.
    ensures same { (bytes : List ℕ) → Tlv bytes info.now → IsOkAnd result (BeginSame out.new bytes) }
{
    let Some(total) = total_with(CHECKSUM_FIELD, &info.entries) else {
        return Err(TooLong);
    };
    write(out, &info.entries, total);
    Ok(HEADER + total)
}

#[cfg(test)]
mod tests;
