//! The text of the trace: a line for each packet that was sent.
//!
//! [`trace_text`] gives the lines of a list of sends, exactly those that the definition of `specs/` gives; only memory
//! may be wanting.
#![tactic(auto)]

#[cfg(test)]
mod tests;
mod trace;

pub use trace::trace_text;
