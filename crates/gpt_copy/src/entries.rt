//! The entries.

ghost use Rattle.std.specs.Prelude.{◌≡◌, length};
ghost use Rattle.gpt_copy.specs.Entries.{entries_of, entry_of, units_of};

use crate::rows::{read_guid, read_u64};
use crate::table::Entry;
use bd_text::Guid;
use byteorder::{ByteOrder, LittleEndian};

/// An entry whose bytes are all zero.
const UNUSED: Entry = Entry {
    kind: Guid { bytes: [0; 16] },
    guid: Guid { bytes: [0; 16] },
    first: 0,
    last: 0,
    attributes: 0,
    name: [0; 36],
};

fn read_name(bytes: &[u8]) -> [u16; 36]
    requires { length bytes.now ≡ 72 }
    ensures { result ≡ units_of bytes.now }
{
    let mut name = [0; 36];
    LittleEndian::read_u16_into(bytes, &mut name);
    name
}

#[tactic(auto, unfolding(crate::specs::Entries::entry_of))]
fn read_entry(bytes: &[u8]) -> Entry
    requires { length bytes.now ≡ 128 }
    ensures { result ≡ entry_of bytes.now }
{
    Entry {
        kind: read_guid(bytes, 0),
        guid: read_guid(bytes, 16),
        first: read_u64(bytes, 32),
        last: read_u64(bytes, 40),
        attributes: read_u64(bytes, 48),
        name: read_name(&bytes[56..128]),
    }
}

pub(crate) fn read_entries(bytes: &[u8]) -> [Entry; 128]
    requires { length bytes.now ≡ 16384 }
    ensures { result ≡ entries_of bytes.now }
{
    let mut entries = [UNUSED; 128];
    for (place, entry) in entries.iter_mut().enumerate() {
        *entry = read_entry(&bytes[128 * place..128 * place + 128]);
    }
    entries
}
