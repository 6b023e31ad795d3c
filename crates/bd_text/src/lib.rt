//! Texts of identifiers and addresses, both ways, without memory: Ethernet addresses, GUIDs and IP
//! addresses.
//!
//! Each type has `parse`, which reads exactly the spellings that the type's definition in `specs/`
//! allows, and `text`, which prints the one spelling that the standard recommends. So what `text`
//! prints, `parse` reads back.
#![tactic(auto)]

mod digits;
mod endian;
mod guid;
mod mac;
mod parts;
mod v4;
mod v6;

pub use guid::Guid;
pub use mac::Mac;
pub use v4::V4;
pub use v6::V6;

#[cfg(test)]
mod tests;
