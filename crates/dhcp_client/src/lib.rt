//! A DHCP client (RFC 2131): a core that asks for an address on one interface, and for what the network's servers say about
//! installers.
//!
//! It asks what is offered, takes the first offer that fits, and asks its server for the lease. What it finds, what it
//! sends and when it ends are functions of what comes to its flow.
#![tactic(auto)]

mod asking;
mod dhcp_core;
mod meaning;
mod offer;
#[cfg(test)]
mod tests;

pub use dhcp_core::DhcpCore;
