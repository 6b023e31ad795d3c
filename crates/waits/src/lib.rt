//! Network clients that wait: what such a client does in its waits is data, an `Exchange`, and its
//! calls, their laws, and what it finds, sends and when it ends follow from that.
//!
//! The crate holds definitions, lemmas and laws for the crates of the clients; it has no code.
#![tactic(auto)]

mod law;

pub use law::{law_of_order, law_of_outcomes, law_of_places};
