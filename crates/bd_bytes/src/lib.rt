//! Numbers read from the front of some bytes, and CRC-32.
//!
//! A read gives the number that stands there and passes its bytes, or is refused where too few
//! are left, and then changes nothing. A checksum is the remainder that IEEE 802.3 defines.
//! Nothing here takes memory.
#![tactic(auto)]

mod crc;
mod cursor;

pub use crc::crc32;
pub use cursor::{Cursor, Short};
