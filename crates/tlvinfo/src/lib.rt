//! The identity of a board: TlvInfo data, as its EEPROM holds them.
//!
//! [`decode`] reads the fields of the bytes, exactly where the bytes are TlvInfo data, and else names the first
//! fault in them. [`encode`] writes the fields as the one spelling that reads as them. [`Info`], the fields, shows
//! them and lets them be set and taken out. [`identity`] reads from the fields which platform the board is and its
//! first address.
#![tactic(auto)]

mod board;
mod codes;
mod decoding;
mod editing;
mod encoding;
mod fault;
mod identifying;
mod info;
mod lengths;
mod platform;

pub use board::Identity;
pub use decoding::decode;
pub use encoding::encode;
pub use fault::{IdentFault, SetFault, TlvFault, TlvKind, TooLong};
pub use identifying::identity;
pub use info::Info;

#[cfg(test)]
mod tests;
