//! How long the parts of the whole are, in bytes.

ghost use Rattle.std.specs.Prelude.{◌≡◌, ◌≤◌, ◌+◌, length};
ghost use Rattle.std.specs.Option.{SomeIff};
ghost use Rattle.tlvinfo.specs.TlvInfo.{joined};
ghost use Rattle.tlvinfo.specs.View.{fields_of};

use crate::info::Entry;

/// The length of the header.
pub(crate) const HEADER: usize = 11;

/// The greatest total length: the whole is at most 2,048 bytes.
pub(crate) const GREATEST_TOTAL: usize = 2037;

/// The length of the checksum's field.
pub(crate) const CHECKSUM_FIELD: usize = 6;

/// The length of a field before its value.
pub(crate) const FIELD_HEAD: usize = 2;

/// A total length with that of these fields added. `None` where it passes the greatest.
pub(crate) fn total_with(total: usize, entries: &[Entry]) -> Option<usize>
    requires { total ≤ 2037 }
    ensures { let sum = total + length (joined (fields_of entries.now)) in
        SomeIff result (sum ≤ 2037) sum }
{
    let mut sum = total;
    for entry in entries {
        sum += FIELD_HEAD + entry.value.len();
        if sum > GREATEST_TOTAL {
            return None;
        }
    }
    Some(sum)
}
