//! Tests of the top call over devices in memory: the texts and the statuses that its users are promised.
//!
//! They call [`onie`](onie_cli::onie) alone, and so stand in a crate of their own: what they test is proved once, and a
//! change of theirs proves none of it again.
#![tactic(auto)]

#[cfg(test)]
mod calls;
#[cfg(test)]
mod command_tests;
#[cfg(test)]
mod script_tests;
#[cfg(test)]
mod set_tests;
#[cfg(test)]
mod status_tests;
