//! The partition table of a disk, of which the disk keeps two copies.
//!
//! [`look`] gives the disk's table: the primary copy's where that is readable, else the backup's. It only reads.
//! [`sane`] tells whether the entries of a table can stand together.
//!
//! [`open`] gives the disk's table too, and writes the other copy from it where that differs. [`replace`] puts another
//! table in its place, first in the primary and then in the backup, with a sync behind each. A power cut at any moment
//! of the two leaves the table that there was, or of [`replace`] the new one, and all sectors off the copies as they
//! were. This rests on one premise, that no torn copy passes for a further table.
//!
//! [`add`], [`delete`], [`keep_alone`], [`retype`], [`renumber`] and [`rename`] change a table in memory, and keep it sane.
//! [`free_run`], [`largest_run`] and [`new_guid`] find room and a GUID for an entry. No call takes memory.
#![tactic(auto)]

mod alone;
mod copies;
mod edits;
mod guids;
mod looking;
mod opening;
mod replacing;
mod runs;
mod sanity;

pub use alone::onie_is_kept_alone;
pub use copies::touches_copy;
pub use edits::{EditFault, add, delete, keep_alone, rename, renumber, retype};
pub use guids::new_guid;
pub use looking::{GptFault, look};
pub use opening::open;
pub use replacing::replace;
pub use runs::{free_run, largest_run};
pub use sanity::{is_used, sane};

#[cfg(test)]
mod copy_tests;
#[cfg(test)]
mod tests;
