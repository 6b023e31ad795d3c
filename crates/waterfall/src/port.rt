//! What a list of candidates is made from beside the board and its media.

use bd_dev::Bytes;
use bd_text::Mac;
use dhcp_lease::Lease;

/// What is fixed for a board.
#[derive(Drop)]
pub struct Fixed {
    /// The URL of an installer that is tried first, where there is one.
    pub url: Option<Bytes>,
    /// The maker of the switching silicon, where it is known.
    pub silicon: Option<Bytes>,
}

/// An interface of a board.
#[derive(Drop)]
pub struct Port {
    /// Its name.
    pub name: Bytes,
    /// Its Ethernet address.
    pub mac: Mac,
    /// The lease that it got, if it got one.
    pub lease: Option<Lease>,
}
