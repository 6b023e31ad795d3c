//! What a copy holds.

use bd_text::Guid;

/// One of the two copies of a table.
#[derive(Clone, Copy, Debug, PartialEq, Eq)]
pub enum Which {
    /// Sectors 1 to 33: the header, and the entries behind it.
    Primary,
    /// The last 33 sectors: the entries, and the header behind them.
    Backup,
}

/// An entry (UEFI 2.10, section 5.3.3). It is used where its kind is not zero.
#[derive(Clone, Copy, Debug, PartialEq, Eq)]
pub struct Entry {
    /// What the partition is for.
    pub kind: Guid,
    /// Which partition it is.
    pub guid: Guid,
    /// The address of its first sector.
    pub first: u64,
    /// The address of its last sector.
    pub last: u64,
    /// Its attributes, bit by bit.
    pub attributes: u64,
    /// Its name, as units of UTF-16.
    pub name: [u16; 36],
}

/// A table: the disk that it is of, the addresses of the first and the last sector that partitions may have, and the
/// entries in their order.
#[derive(Clone, Copy, Debug, PartialEq, Eq)]
pub struct Table {
    pub disk: Guid,
    pub first_usable: u64,
    pub last_usable: u64,
    pub entries: [Entry; 128],
}
