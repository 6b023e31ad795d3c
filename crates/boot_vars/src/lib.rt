//! The boot variables, which the flash keeps in a pair of slots: a text of lines `name=value`, each ended by a zero
//! byte.
//!
//! [`BootVars::open`] reads them and tests each line; then [`BootVars::get`] gives a value, [`BootVars::mode`] the mode
//! that is asked for, and [`BootVars::named`] the operating system that is to boot.
#![tactic(auto)]

mod fault;
mod find;
mod lines;
mod place;
mod vars;

pub use bd_mode::Mode;
pub use fault::{VarFault, VarsFault};
pub use vars::BootVars;

#[cfg(test)]
mod change_tests;
#[cfg(test)]
mod cut_tests;
#[cfg(test)]
mod tests;
