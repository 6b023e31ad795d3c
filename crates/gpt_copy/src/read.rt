//! A table from the bytes of a copy.

ghost use Rattle.std.specs.Prelude.{◌≡◌, length, IfSome};
ghost use Rattle.gpt_copy.specs.Copy.{FitsDisk, entry_bytes, header_of, reading, table_from};

use crate::entries::read_entries;
use crate::header::holds_rows;
use crate::rows::{read_guid, read_u64};
use crate::table::{Table, Which};

/// The header's sector, and the sectors of the entries.
fn sides(bytes: &[u8], which: Which) -> (&[u8], &[u8])
    requires { length bytes.now ≡ 16896 }
    ensures long { length result.0.now ≡ 512 }
    ensures entries_long { length result.1.now ≡ 16384 }
    ensures header { result.0.now ≡ header_of which bytes.now }
    ensures entries { result.1.now ≡ entry_bytes which bytes.now }
{
    match which {
        Which::Primary => bytes.split_at(512),
        Which::Backup => {
            let (entries, header) = bytes.split_at(16384);
            (header, entries)
        }
    }
}

/// The table of a header and of entries.
#[tactic(auto, unfolding(crate::specs::Copy::table_from))]
fn read_table(header: &[u8], entries: &[u8]) -> Table
    requires header { length header.now ≡ 512 }
    requires entries { length entries.now ≡ 16384 }
    ensures { result ≡ table_from header.now entries.now }
{
    Table {
        disk: read_guid(header, 56),
        first_usable: read_u64(header, 40),
        last_usable: read_u64(header, 48),
        entries: read_entries(entries),
    }
}

/// Reads the table of a copy, from its 33 sectors in the order of their addresses, on a disk whose last sector has the
/// address. `None` exactly where a row of the header does not hold.
///
/// Source: UEFI 2.10, sections 5.3.2 and 5.3.3, for 128 entries of 128 bytes and a header of 92 bytes.
#[tactic(auto, unfolding(crate::specs::Copy::reading))]
pub fn read_copy(bytes: &[u8; 16896], which: Which, last_lba: u64) -> Option<Table>
    ensures read { result ≡ reading which last_lba bytes.now }
    ensures fits { IfSome result (FitsDisk last_lba) }
{
    let (header, entries) = sides(bytes, which);
    if !holds_rows(header, entries, which, last_lba) {
        return None;
    }
    Some(read_table(header, entries))
}
