//! Where an installer for a board may be.
//!
//! [`names`] lists the names that its file may have, the narrowest first. [`candidates`] lists the places where such a
//! file may be, in the order in which they are tried, each text that is shown for a place once. Both are exactly the
//! lists that the definitions of `specs/` give; only memory may be wanting.
#![tactic(auto)]

mod candidate;
mod listing;
mod local;
mod naming;
#[cfg(test)]
mod tests;

pub use candidate::{Candidate, Place};
pub use local::candidates;
pub use naming::names;
