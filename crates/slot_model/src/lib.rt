//! What a pair of slots means: which of the two is current, and what it holds.
//!
//! Definitions alone, in `specs/`, which the crates of the flash share; there is no code here.
#![tactic(auto)]
