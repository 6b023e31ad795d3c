//! A network in memory: it plays a list of arrivals, and keeps what was sent.
//!
//! It is for tests. Each row of the list is an arrival for all flows of one label in one round, so
//! long after their opening. Which flow comes first among arrivals of one time can be chosen, and
//! the calls that are to fail are given by their numbers.
#![tactic(auto)]

mod list_feeds;
mod list_net;
mod list_row;
#[cfg(test)]
mod tests;

pub use list_net::{ListNet, ListSend};
pub use list_row::ListRow;
