//! The whole list of the places where an installer for a board may be: a fixed URL, local media, and what the leases of the
//! board's interfaces say.
//!
//! [`candidates`] lists them in the order in which they are tried, each text that is shown for one once. It is exactly the
//! list that the definitions of `specs/` give; only memory may be wanting.
#![tactic(auto)]

mod candidate;
mod file_lists;
mod folders;
mod listing;
mod port;
mod shown;
#[cfg(test)]
mod tests;
mod urls;
mod whole;

pub use candidate::{Candidate, Place};
pub use port::{Fixed, Port};
pub use whole::candidates;
