//! The text that says what a board's disk holds and what the board boots.
//!
//! [`print_status`] writes it to a sink, without memory: the copy of the table that counts, a line for each used entry,
//! and what boots.
#![tactic(auto)]

mod entries;
mod name;
mod parts;
mod status;

pub use status::print_status;
