//! What a board is.

use arrayvec::ArrayString;
use bd_text::Mac;

/// What a board is: its platform name with the three parts of it, and its first MAC address.
#[derive(Clone, Copy)]
pub struct Identity {
    pub platform: ArrayString<200>,
    pub arch: ArrayString<200>,
    pub machine: ArrayString<200>,
    pub revision: ArrayString<200>,
    pub mac: Mac,
}
