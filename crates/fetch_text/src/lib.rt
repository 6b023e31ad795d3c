//! The console's line of a candidate, by what a fetch gives of it.
//!
//! [`found_line`] is the line of a body, and [`miss_line`] that of a miss, with its cause. Both are exactly the lines that
//! the definitions of `specs/` give; only memory may be wanting.
#![tactic(auto)]

mod lines;
#[cfg(test)]
mod tests;

pub use lines::{found_line, miss_line};
