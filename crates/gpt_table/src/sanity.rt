//! Whether the entries of a table can stand together.

ghost use Rattle.std.specs.Prelude.{◌≡◌, ◌≢◌, ◌≤◌, ◌<◌, ◌↔◌, ℕ, IsTrue, length, slice_get, Some};
ghost use Rattle.gpt_copy.specs.declared.table.Entry.{Entry};
ghost use Rattle.storage_model.specs.Entries.{AreApart, IsSane, IsWithin, unused_type};
ghost use Rattle.gpt_table.specs.Together.{AreTogether, Stands, StandsAfter};

use bd_text::Guid;
use gpt_copy::{Entry, Table};

/// The type of an unused entry.
const UNUSED_TYPE: Guid = Guid { bytes: [0; 16] };

/// Whether an entry is used: its type is not zero.
pub fn is_used(entry: &Entry) -> bool
    ensures { IsTrue result ↔ (entry.now.kind ≢ unused_type) }
{
    entry.kind != UNUSED_TYPE
}

/// Whether an entry lies in the usable range.
pub(crate) fn is_within(table: &Table, entry: &Entry) -> bool
    ensures { IsTrue result ↔ IsWithin table.now entry.now }
{
    table.first_usable <= entry.first
        && entry.first <= entry.last
        && entry.last <= table.last_usable
}

/// Whether two entries share no sector and have different GUIDs.
fn are_together(one: &Entry, other: &Entry) -> bool
    ensures { IsTrue result ↔ AreTogether one.now other.now }
{
    (one.last < other.first || other.last < one.first) && one.guid != other.guid
}

/// Whether an entry can stand behind these: each of them that is used can stand together with it.
fn stands_after(before: &[Entry], entry: &Entry) -> bool
    ensures { IsTrue result ↔ StandsAfter before.now entry.now }
{
    before.iter().all(|earlier| !is_used(earlier) || are_together(earlier, entry))
}

/// Whether the entry at a place, where it is used, lies in the usable range and can stand behind those before it.
fn stands(table: &Table, entries: &[Entry], place: usize) -> bool
    requires entries { entries.now ≡ table.now.entries }
    requires place { place < length entries.now }
    ensures { IsTrue result ↔ Stands table.now place }
{
    let entry = &entries[place];
    !is_used(entry) || (is_within(table, entry) && stands_after(&entries[..place], entry))
}

/// Whether the used entries lie in the usable range with the first sector at most the last, share no sector and have
/// different GUIDs.
pub fn sane(table: &Table) -> bool
    ensures { IsTrue result ↔ IsSane table.now }
{
    let entries = table.entries.as_slice();
    for place in 0..entries.len() {
        if !stands(table, entries, place) {
            return false;
        }
    }
    true
}
