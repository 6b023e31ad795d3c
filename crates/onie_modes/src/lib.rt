//! What a board's modes do: each command that works with candidates, to its end and that end's line.
//!
//! [`discover`] lists the candidates and answers a [`Status`], whose number is the program's exit status. A command is
//! data to its contract (`specs/Course.antt`): the devices that it uses, its own ends, and the course that it takes by
//! what the devices hold; [`Runs`](../specs/Running.antt) says how a call takes its course or is broken off, and `Does`
//! how its end is reported. [`report`] is the one writer of refusals.
#![tactic(auto)]

mod discovery;
mod exit;
mod identity;
mod refusal;
mod script;

pub use discovery::discover;
pub use exit::{EepromKind, Outcome, RefusedKind, Status};
pub use identity::{LoadFault, load_identity, load_info};
pub use refusal::report;
pub use script::{NetFault, open_net};
