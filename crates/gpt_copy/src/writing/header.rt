//! The bytes of the header's sector.

ghost use Rattle.std.specs.Prelude.{◌≡◌, ◌++◌, length};
ghost use Rattle.gpt_copy.specs.Copy.{FitsDisk, table_from};
ghost use Rattle.gpt_copy.specs.Header.{alternate_lba, entries_lba, own_lba};
ghost use Rattle.gpt_copy.specs.Writing.{rows_spelling, sector_spelling};

use crate::rows::{write_bytes, write_guid, write_u32, write_u64};
use crate::table::{Table, Which};
use bd_bytes::crc32;

/// Where the header stands, where that of the other copy, and where the entries.
fn places(which: Which, last_lba: u64) -> (u64, u64, u64)
    ensures own { result.0 ≡ own_lba which last_lba }
    ensures alternate { result.1 ≡ alternate_lba which last_lba }
    ensures entries { result.2 ≡ entries_lba which last_lba }
{
    match which {
        Which::Primary => (1, last_lba, 2),
        Which::Backup => (last_lba, 1, last_lba.saturating_sub(32)),
    }
}

/// The header with such checksums of its own and of the entries.
fn header_with(table: &Table, which: Which, last_lba: u64, own: u32, checksum: u32) -> [u8; 92]
    ensures is { result ≡ rows_spelling table.now which last_lba own checksum }
    ensures long { length result ≡ 92 }
    ensures disk { length table.now.disk.bytes ≡ 16 }
{
    let (place, alternate, entries) = places(which, last_lba);
    let mut header = [0; 92];
    write_bytes(&mut header, 0, b"EFI PART");
    write_u32(&mut header, 8, 0x0001_0000);
    write_u32(&mut header, 12, 92);
    write_u32(&mut header, 16, own);
    write_u32(&mut header, 20, 0);
    write_u64(&mut header, 24, place);
    write_u64(&mut header, 32, alternate);
    write_u64(&mut header, 40, table.first_usable);
    write_u64(&mut header, 48, table.last_usable);
    write_guid(&mut header, 56, &table.disk);
    write_u64(&mut header, 72, entries);
    write_u32(&mut header, 80, 128);
    write_u32(&mut header, 84, 128);
    write_u32(&mut header, 88, checksum);
    header
}

/// Writes the header's sector of a table whose entries have the checksum.
pub(crate) fn write_sector(
    table: &Table,
    which: Which,
    last_lba: u64,
    checksum: u32,
    out: &mut [u8],
)
    requires { length out.old ≡ 512 }
    ensures is { out.new ≡ sector_spelling table.now which last_lba checksum }
    ensures disk { length table.now.disk.bytes ≡ 16 }
{
    let cleared = header_with(table, which, last_lba, 0, checksum);
    let header = header_with(table, which, last_lba, crc32(&cleared), checksum);
    write_bytes(out, 0, &header);
    write_bytes(out, 92, &[0; 420]);
}
