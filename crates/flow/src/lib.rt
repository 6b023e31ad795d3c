//! Network clients that run side by side, each on a flow of its own, in one event loop.
//!
//! A client is a `Core`: a state machine without a device, which is told of arrivals and of its own
//! deadlines and answers with letters to send. `run` drives up to 16 of them over one network until
//! the last is done. Each ends as it would end alone with what comes to its label.
#![tactic(auto)]

mod cores;
mod event_loop;
mod filing;
mod flows;
mod letters;
mod opens;
mod posting;
mod sends;
mod steps;
#[cfg(test)]
mod tests;
mod turns;

pub use cores::Core;
pub use event_loop::run;
pub use flows::{Flow, FlowFault};
pub use letters::{Letter, Outbox};
pub use sends::{Sends, Sent};
