//! The tables of codes of formats that are made of fields, each a code, a length and a value.
//!
//! A table is searched by code and gives the one row that has it, or none where no row has it.
//! The table of the TlvInfo format stands here as the ONIE design specification lists it, and that of
//! the DHCP options that are read or written. Nothing
//! here takes memory.
#![tactic(auto)]

mod codes;
mod row;

pub use codes::{Codes, dhcp_codes, tlv_codes};
pub use row::{Kind, Row};
