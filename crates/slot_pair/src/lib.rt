//! A pair of slots in an area of a plant, of which one is current, so that a content can be replaced by another while a
//! power cut at any moment leaves one of the two.
//!
//! A slot is a gate's sector and N sectors of its body. It is open where its gate begins with `ONIEOPEN` and the length
//! in its body is at most 512 N - 12 bytes; the current slot is the open one with the greater number.
//! [`SlotPair::open`] finds it, [`SlotPair::read`] gives its content, [`SlotPair::put`] replaces it, and
//! [`SlotPair::format`] makes a pair.
#![tactic(auto)]

mod body;
mod choice;
mod fault;
mod gates;
mod head;
mod pair;
mod slots;

pub use fault::{PutFault, SlotFault};
pub use pair::SlotPair;

#[cfg(test)]
mod put_tests;
#[cfg(test)]
mod tests;
