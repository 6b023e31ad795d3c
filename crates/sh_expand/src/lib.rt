//! The shell's expansion, as far as it runs no command: variables and options in an [`Env`], [`arithmetic`], patterns
//! that [`matches`] tries on a text, and [`split_fields`] (POSIX.1-2017, Shell Command Language, 2.5, 2.6, 2.13).
#![tactic(auto)]

mod back;
mod cut;
mod env;
mod fault;
mod fields;
mod item;
mod matching;

pub use back::ends_are_fronts;
pub use cut::{cut_end, cut_front, whole_front};
pub use env::{Env, Flags, VARIABLES_LIMIT, arithmetic};
pub use fault::ExpandFault;
pub use fields::{TEXT_LIMIT, split_fields};
pub use matching::matches;

#[cfg(test)]
mod tests;
