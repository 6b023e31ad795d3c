//! Whether a board is sound, and what it boots.
//!
//! [`judge`] reads a board's variables and its table, and tells whether the disk is sound; it only reads. Its steps are
//! [`open_vars`], which reads the variables, and [`judge_table`], which tests a table; [`has_onie_image`] asks for
//! ONIE's image alone. [`boots`] tells what a sound board boots. [`onie_number`] finds ONIE's entry in a table, [`has_nos`] a
//! NOS of a GUID.
#![tactic(auto)]

mod booting;
mod image;
mod judging;
mod onie;
mod outcome;

pub use booting::{boots, has_nos};
pub use judging::{JudgeFault, Sound, SoundKind, has_onie_image, judge, judge_table, open_vars};
pub use onie::{is_onie, onie_entry, onie_number};
pub use outcome::Boots;
