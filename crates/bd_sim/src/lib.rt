//! A plant in memory, for tests: it keeps all that was asked of it, so that it can show what a power cut at any
//! moment may have left.
#![tactic(auto)]

mod image;
mod journal;
mod open;
mod plant;
mod snapshot;
#[cfg(test)]
mod tests;
mod written;

pub use image::Pick;
pub use plant::SimPlant;
pub use snapshot::Snapshot;
