//! A candidate, fetched: its bytes, or why there are none.
//!
//! [`Fetcher`] is what gives a candidate's body, and [`Plain`] the one that reads local media and runs a client on the
//! network, one candidate after the other. [`aim`] tells where a request for a candidate goes and what it asks for, or
//! why none is sent; [`body_label`] is the label of its flow, and [`BodyCore`] the client that runs on it.
//!
//! What a fetch gives and what it sends are functions of the candidate, of what the media hold, and of what comes to
//! the flows of its label in that round (`specs/Fetching.antt`).
#![tactic(auto)]

#[cfg(test)]
mod aim_tests;
mod aiming;
mod body_core;
#[cfg(test)]
mod fetch_tests;
mod fetched;
mod fetcher;
mod labels;
mod local;
mod plain;
mod request;
mod spots;
mod urls;

pub use aiming::aim;
pub use body_core::BodyCore;
pub use fetched::{FetchFault, Fetched, Miss};
pub use fetcher::Fetcher;
pub use labels::body_label;
pub use plain::Plain;
pub use request::{Aim, Aimed, Spot, Way};
