//! A small core, for tests of `flow`, and as an example of a core.
#![tactic(auto)]

mod probe;
#[cfg(test)]
mod tests;

pub use probe::Probe;
