//! What the loader is to do at a start: install, rescue, uninstall, update or embed.
//!
//! [`Mode`] is the type, [`Mode::text`] how it is written, and [`Mode::parse`] reads that.
#![tactic(auto)]

mod mode;

pub use mode::Mode;

#[cfg(test)]
mod tests;
