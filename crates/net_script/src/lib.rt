//! The script of a network, read and played.
//!
//! A script is a text of lines that say what comes to which flows and when, so that a run over a network can be
//! repeated exactly. [`read_script`] reads all of its lines, or names the first that is wrong and what is wrong with it.
//! [`ScriptNet`] is the network that plays it.
#![tactic(auto)]

mod fault;
mod feed;
mod hosts;
mod keywords;
mod line;
mod line_reader;
mod numbers;
mod script;
mod script_feeds;
mod script_net;
mod serving;
mod words;

pub use fault::{ScriptFault, ScriptKind};
pub use script::{Script, read_script};
pub use script_net::ScriptNet;

#[cfg(test)]
mod net_tests;
#[cfg(test)]
mod tests;
