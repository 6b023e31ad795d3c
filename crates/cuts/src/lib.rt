//! States of a board, the effects that change them, and what a power cut within a run of effects leaves.
//!
//! Definitions, in `specs/`, that all crates share which change a board; and the law of cuts, [`law_of_cuts`]: at
//! every cut of an orderly run the board is sound, ONIE's partition stands as it was, and a NOS that is named holds
//! every byte written to it.
#![tactic(auto)]

mod effect;
mod law;

pub use effect::Effect;
pub use law::{
    clean_cuts_are_cuts, law_of_boots, law_of_cuts, law_of_ends, law_of_openings, law_of_starts,
    law_of_success, law_of_the_last, sound_boards_are_starts,
};
