//! One copy of a GUID partition table, as a disk keeps two: the header and the 128 entries.
//!
//! [`read_copy`] reads a table exactly where each row of the header holds, and keeps all bytes of all entries.
//! [`write_copy`] writes one, which then reads as the same table.
#![tactic(auto)]

mod entries;
mod header;
mod read;
mod rows;
mod table;
mod writing;

pub use read::read_copy;
pub use table::{Entry, Table, Which};
pub use writing::write_copy;

#[cfg(test)]
mod tests;
