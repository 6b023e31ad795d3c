//! What stands at an offset.

ghost use Rattle.std.specs.Prelude.{◌≡◌, ◌+◌, ◌<◌, ◌≤◌, ◌^◌, ◌++◌, length, take};
ghost use Rattle.gpt_copy.specs.Rows.{guid_at, number_at};
ghost use Rattle.gpt_copy.specs.Writing.{bytes_4, bytes_8};

use bd_text::Guid;
use byteorder::{ByteOrder, LittleEndian};

pub(crate) fn read_u32(bytes: &[u8], offset: usize) -> u32
    requires { offset + 4 ≤ length bytes.now }
    ensures { result ≡ number_at offset 4 bytes.now }
{
    LittleEndian::read_u32(&bytes[offset..])
}

pub(crate) fn read_u64(bytes: &[u8], offset: usize) -> u64
    requires { offset + 8 ≤ length bytes.now }
    ensures { result ≡ number_at offset 8 bytes.now }
{
    LittleEndian::read_u64(&bytes[offset..])
}

pub(crate) fn read_guid(bytes: &[u8], offset: usize) -> Guid
    requires { offset + 16 ≤ length bytes.now }
    ensures { result ≡ guid_at offset bytes.now }
{
    let mut guid = [0; 16];
    guid.copy_from_slice(&bytes[offset..offset + 16]);
    Guid { bytes: guid }
}

/// Writes bytes behind those that stand before the offset.
pub(crate) fn write_bytes(out: &mut [u8], offset: usize, bytes: &[u8])
    requires { offset + length bytes.now ≤ length out.old }
    ensures { take (offset + length bytes.now) out.new ≡ take offset out.old ++ bytes.now }
{
    out[offset..offset + bytes.len()].copy_from_slice(bytes);
}

/// Writes a GUID behind the bytes that stand before the offset.
pub(crate) fn write_guid(out: &mut [u8], offset: usize, guid: &Guid)
    requires { offset + 16 ≤ length out.old }
    ensures written { take (offset + 16) out.new ≡ take offset out.old ++ guid.now.bytes }
    ensures long { length guid.now.bytes ≡ 16 }
{
    write_bytes(out, offset, &guid.bytes);
}

/// Writes a number behind the bytes that stand before the offset.
#[tactic(auto, unfolding(crate::specs::Writing::bytes_4))]
pub(crate) fn write_u32(out: &mut [u8], offset: usize, value: u32)
    requires { offset + 4 ≤ length out.old }
    ensures { take (offset + 4) out.new ≡ take offset out.old ++ bytes_4 value }
{
    let mut bytes = [0; 4];
    LittleEndian::write_u32(&mut bytes, value);
    write_bytes(out, offset, &bytes);
}

/// Writes a number behind the bytes that stand before the offset.
#[tactic(auto, unfolding(crate::specs::Writing::bytes_8))]
pub(crate) fn write_u64(out: &mut [u8], offset: usize, value: u64)
    requires { offset + 8 ≤ length out.old }
    ensures written { take (offset + 8) out.new ≡ take offset out.old ++ bytes_8 value }
    ensures small { value < 256 ^ 8 }
{
    let mut bytes = [0; 8];
    LittleEndian::write_u64(&mut bytes, value);
    write_bytes(out, offset, &bytes);
}
