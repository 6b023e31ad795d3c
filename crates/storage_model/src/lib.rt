//! What the disk and the flash of a board mean: the disk's table with its two copies and its entries, the variables,
//! ONIE's image, soundness, and what boots.
//!
//! Definitions, in `specs/`, which all crates of storage share. There is no code here but for [`choices_are_found`] and
//! [`names_and_boots_are_decided`], laws about them.
#![tactic(auto)]

mod choices;

pub use choices::{choices_are_found, names_and_boots_are_decided};
