//! A request for a body.

use crate::fetched::Miss;
use bd_dev::Bytes;

/// The host that a request goes to.
#[derive(Drop)]
pub enum Spot {
    /// An address as labels show it: four decimal numbers, or an IPv6 address in brackets.
    At(Bytes),
    /// A name that is to be looked up.
    Called(Bytes),
}

/// How a body is asked for, and which.
#[derive(Drop)]
pub enum Way {
    /// Over TFTP, by a path of 1 to 400 bytes of printable ASCII.
    Tftp { path: Bytes },
}

/// A request for a body.
#[derive(Drop)]
pub struct Aim {
    /// The host.
    pub spot: Spot,
    /// The port, at least 1.
    pub port: u16,
    /// What is asked for.
    pub way: Way,
}

/// What is to be done for a candidate.
#[derive(Drop)]
pub enum Aimed {
    /// A file of a local medium is to be read.
    Local,
    /// Nothing: no request can be made for it.
    Refused(Miss),
    /// A request is to be sent.
    Aim(Aim),
}
