//! The bytes of the entries.

ghost use Rattle.std.specs.Prelude.{◌≡◌, ◌++◌, length};
ghost use Rattle.bd_bytes.specs.Crc.{crc32_of};
ghost use Rattle.gpt_copy.specs.Entries.{entries_of, entry_of, units_of};
ghost use Rattle.gpt_copy.specs.Writing.{entries_spelling, entry_spelling, name_spelling};

use crate::rows::{write_guid, write_u64};
use crate::table::Entry;
use bd_bytes::crc32;
use byteorder::{ByteOrder, LittleEndian};

fn write_name(name: &[u16; 36], out: &mut [u8])
    requires { length out.old ≡ 72 }
    ensures written { out.new ≡ name_spelling name.now }
    ensures reads { units_of out.new ≡ name.now }
{
    LittleEndian::write_u16_into(name, out);
}

fn write_entry(entry: &Entry, out: &mut [u8])
    requires { length out.old ≡ 128 }
    ensures written { out.new ≡ entry_spelling entry.now }
    ensures reads { entry_of out.new ≡ entry.now }
{
    write_guid(out, 0, &entry.kind);
    write_guid(out, 16, &entry.guid);
    write_u64(out, 32, entry.first);
    write_u64(out, 40, entry.last);
    write_u64(out, 48, entry.attributes);
    write_name(&entry.name, &mut out[56..]);
}

fn write_each(entries: &[Entry; 128], out: &mut [u8])
    requires { length out.old ≡ 16384 }
    ensures written { out.new ≡ entries_spelling entries.now }
    ensures reads { entries_of out.new ≡ entries.now }
{
    let entries = entries.as_slice();
    for place in 0..entries.len() {
        write_entry(&entries[place], &mut out[128 * place..128 * place + 128]);
    }
}

/// Writes the entries, and answers their checksum.
pub(crate) fn write_entries(entries: &[Entry; 128], out: &mut [u8]) -> u32
    requires { length out.old ≡ 16384 }
    ensures written { out.new ≡ entries_spelling entries.now }
    ensures reads { entries_of out.new ≡ entries.now }
    ensures checksum { result ≡ crc32_of (entries_spelling entries.now) }
{
    write_each(entries, out);
    crc32(out)
}
