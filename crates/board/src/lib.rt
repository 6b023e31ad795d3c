//! A board that is changed: its disk, its table and its variables, with a journal of the effects that it had.
//!
//! [`Board::open`] readies a sound board. From then on each change is one [`Effect`], noted before the first call to the
//! disk or the flash. What every call keeps, whatever it answers, is one relation, `Keeps` of `specs/Held.antt`: the board
//! after it is as the effects noted leave it, and each image that a power cut within it may leave is a cut of them, with
//! all of them done but the one that runs.
#![tactic(auto)]

mod board;
mod changes;
mod fault;
mod journal;
mod opening;
mod variables;

pub use board::{Board, Held};
pub use cuts::Effect;
pub use fault::BoardFault;
pub use journal::Journal;
pub use opening::{OpenFault, Opened, prepare};
pub use soundness::SoundKind;

#[cfg(test)]
mod tests;
