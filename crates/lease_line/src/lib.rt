//! A `lease` line of a network script: the DHCP replies that it stands for.
//!
//! A line says `lease R IF MS ADDR SERVER KEY=VALUE ..`. A [`LeaseReply`] is one of its two replies, made from ADDR and SERVER,
//! and then from each key in order, or the first fault among them.
#![tactic(auto)]

mod address;
mod fault;
mod key;
mod reply;
#[cfg(test)]
mod tests;

pub use fault::KeyFault;
pub use reply::{LeaseReply, ReplyKind};
