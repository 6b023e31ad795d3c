//! An offer.

use bd_text::V4;

/// What a server offers a client.
#[derive(Clone, Copy)]
pub(crate) struct Offer {
    /// The server, by which it is known later.
    pub(crate) server: V4,
    /// The address that the client may have.
    pub(crate) address: V4,
}
