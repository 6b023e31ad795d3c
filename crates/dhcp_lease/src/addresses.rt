//! Lists of addresses.

ghost use Rattle.std.specs.Prelude.{◌≡◌, length, take};
ghost use Rattle.std.specs.Option.{option_copied};
ghost use Rattle.dhcp_lease.specs.Values.{addresses_of, quads};

use arrayvec::ArrayVec;
use bd_text::V4;

/// The length of an address, in bytes.
const ADDRESS: usize = 4;

/// How many addresses of an option are kept.
const MOST: usize = 8;

/// The first eight addresses of a value.
fn first_addresses(value: &[u8]) -> ArrayVec<V4, 8>
    ensures { result.items ≡ take 8 (quads value.now) }
{
    let mut found = ArrayVec::new();
    let mut left = value;
    'each: while found.len() < MOST && left.len() >= ADDRESS {
        let (front, rest) = left.split_at(ADDRESS);
        let mut bytes = [0; 4];
        bytes.copy_from_slice(front);
        found.push(V4 { bytes });
        left = rest;
    }
    found
}

/// The first eight addresses of a value, none where there is no value or its length is no multiple of four.
pub(crate) fn addresses(value: Option<&[u8]>) -> ArrayVec<V4, 8>
    ensures { result.items ≡ addresses_of (option_copied value.entry) }
{
    match value {
        Some(value) if value.len() % ADDRESS == 0 => first_addresses(value),
        _ => ArrayVec::new(),
    }
}
