//! The rows of the header.

ghost use Rattle.std.specs.Prelude.{◌≡◌, length};
ghost use Rattle.gpt_copy.specs.Header.{has_checksums, has_form, has_layout, has_parts, has_places, has_rows, has_usable, without_checksum};

use crate::rows::{read_u32, read_u64};
use crate::table::Which;
use bd_bytes::crc32;

/// Whether the rows hold that are the same in every header.
fn holds_form(header: &[u8]) -> bool
    requires { length header.now ≡ 512 }
    ensures { result ≡ has_form header.now }
{
    header[..8] == b"EFI PART"[..]
        && read_u32(header, 8) == 0x0001_0000
        && read_u32(header, 12) == 92
        && read_u32(header, 20) == 0
        && read_u32(header, 80) == 128
        && read_u32(header, 84) == 128
}

/// Whether the usable sectors lie between the two copies.
fn holds_usable(header: &[u8], last_lba: u64) -> bool
    requires { length header.now ≡ 512 }
    ensures { result ≡ has_usable last_lba header.now }
{
    let first = read_u64(header, 40);
    let last = read_u64(header, 48);
    34 <= first && first <= last && last <= last_lba.saturating_sub(33)
}

/// Whether the rows hold that say where the parts of the copy stand.
fn holds_parts(header: &[u8], which: Which, last_lba: u64) -> bool
    requires { length header.now ≡ 512 }
    ensures { result ≡ has_parts which last_lba header.now }
{
    let (own, alternate, entries) = match which {
        Which::Primary => (1, last_lba, 2),
        Which::Backup => (last_lba, 1, last_lba.saturating_sub(32)),
    };
    read_u64(header, 24) == own
        && read_u64(header, 32) == alternate
        && read_u64(header, 72) == entries
}

/// The header's 92 bytes with zero in place of its checksum.
fn cleared(header: &[u8]) -> [u8; 92]
    requires { length header.now ≡ 512 }
    ensures { result ≡ without_checksum header.now }
{
    let mut cleared = [0; 92];
    cleared[..16].copy_from_slice(&header[..16]);
    cleared[20..].copy_from_slice(&header[20..92]);
    cleared
}

/// Whether the checksums of the header and of the entries hold.
fn holds_checksums(header: &[u8], entries: &[u8]) -> bool
    requires { length header.now ≡ 512 }
    ensures { result ≡ has_checksums header.now entries.now }
{
    read_u32(header, 16) == crc32(&cleared(header)) && read_u32(header, 88) == crc32(entries)
}

/// Whether all places are right, on a disk whose last sector has the address.
fn holds_places(header: &[u8], which: Which, last_lba: u64) -> bool
    requires { length header.now ≡ 512 }
    ensures { result ≡ has_places which last_lba header.now }
{
    holds_usable(header, last_lba) && holds_parts(header, which, last_lba)
}

/// Whether all rows but the checksums hold.
fn holds_layout(header: &[u8], which: Which, last_lba: u64) -> bool
    requires { length header.now ≡ 512 }
    ensures { result ≡ has_layout which last_lba header.now }
{
    holds_form(header) && holds_places(header, which, last_lba)
}

/// Whether all rows hold.
pub(crate) fn holds_rows(header: &[u8], entries: &[u8], which: Which, last_lba: u64) -> bool
    requires { length header.now ≡ 512 }
    ensures { result ≡ has_rows which last_lba header.now entries.now }
{
    holds_layout(header, which, last_lba) && holds_checksums(header, entries)
}
