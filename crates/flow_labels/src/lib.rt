//! The labels of flows: which clients talk on a flow, and with whom.
//!
//! A client opens its flow under such a label, and a network gives to a flow what is for its label. Both have the texts
//! from here, byte for byte: `dhcp IF`, `nbr IF`, `dns SERVER HOST`, `tftp HOST:PORT PATH` and `http HOST:PORT TARGET`.
#![tactic(auto)]

mod hosts;
mod labels;
mod law;
#[cfg(test)]
mod tests;

pub use hosts::{is_iface_name, server_text};
pub use labels::{dhcp_label, dns_label, http_label, nbr_label, tftp_label};
pub use law::law_of_hosts;
