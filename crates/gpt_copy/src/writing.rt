//! The bytes of a table's copy.

ghost use Rattle.std.specs.Prelude.{◌≡◌, Some};
ghost use Rattle.gpt_copy.specs.Copy.{FitsDisk, reading};
ghost use Rattle.gpt_copy.specs.Writing.{copy_spelling};

use crate::table::{Table, Which};
use entries::write_entries;
use header::write_sector;

mod entries;
mod header;

/// Writes a table as a copy, its 33 sectors in the order of their addresses, for a disk whose last sector has the
/// address. What [`read_copy`](crate::read_copy) reads of it is the table again.
///
/// The rest of the header's sector is zero.
///
/// Source: UEFI 2.10, sections 5.3.2 and 5.3.3, for 128 entries of 128 bytes and a header of 92 bytes.
pub fn write_copy(table: &Table, which: Which, last_lba: u64, out: &mut [u8; 16896])
    requires fits { FitsDisk last_lba table.now }
    ensures written { out.new ≡ copy_spelling table.now which last_lba }
    ensures reads { reading which last_lba out.new ≡ Some table.now }
{
    match which {
        Which::Primary => {
            let checksum = write_entries(&table.entries, &mut out[512..]);
            write_sector(table, which, last_lba, checksum, &mut out[..512]);
        }
        Which::Backup => {
            let checksum = write_entries(&table.entries, &mut out[..16384]);
            write_sector(table, which, last_lba, checksum, &mut out[16384..]);
        }
    }
}
