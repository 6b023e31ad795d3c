//! The format of DHCP messages (RFC 2131, section 2, and RFC 2132, section 2).
//!
//! [`decode`] reads the message that bytes are, exactly where they are one, and else names the first fault in them.
//! [`encode`] writes a message as the one spelling that this crate gives it, and what it writes reads as that message.
//! [`Options`] holds each option once: values of options of one code are joined, as RFC 3396 has it.
#![tactic(auto)]

mod decoding;
mod dhcp_option;
mod encoding;
mod fault;
mod fields;
mod layout;
mod message;
mod options;
mod overload;

pub use decoding::decode;
pub use dhcp_option::DhcpOption;
pub use encoding::encode;
pub use fault::DhcpFault;
pub use fields::counted_bytes;
pub use message::Message;
pub use options::Options;

#[cfg(test)]
mod tests;
