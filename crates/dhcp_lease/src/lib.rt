//! What a DHCP server's message says to a client: its type, its server, and the lease that it gives.
//!
//! An option whose value isn't what its code asks for counts as absent. What is read of a message are functions of its
//! options and fields, whose definitions stand in `specs/`.
#![tactic(auto)]

mod addresses;
mod lease;
mod texts;
mod values;
mod vendor;

pub use lease::{Lease, read_lease};
pub use values::{message_type, server};

#[cfg(test)]
mod tests;
