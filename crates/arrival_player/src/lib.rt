//! A network's arrivals, played: which comes next to the open flows, and when.
//!
//! What comes is kept in [`Feeds`]. A flow that is opened asks them once for the [`Spot`]s of what
//! comes to it, and for an arrival only when it is given. [`Player`] keeps the open flows and the
//! time; a network hands its calls on to it.
#![tactic(auto)]

mod feeds;
mod flows;
mod player;

pub use feeds::{Feeds, Spot, copy_of};
pub use player::Player;
