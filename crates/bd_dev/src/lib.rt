//! The devices that the program talks to: a plant (the disk and the flash), an EEPROM, removable media, a network, and
//! a source and a sink of bytes.
//!
//! Each is a trait, whose clauses speak of what the device holds, where it tells that, and of its
//! count of faults: the answers are what the device holds, a call that fails has raised the count
//! and, but for a write of a plant and an EEPROM's store, changes nothing that the device holds,
//! and the count never falls. A device that tells nothing, as a real file, still keeps the bounds.
//! A plant's clauses speak of what a power cut at any moment may leave, too. The devices in memory
//! tell all that they hold, and fail at the calls whose numbers they were given.
//!
//! A plant's call speaks of that call; the relations of `Runs` and `Touching` speak of many: what a crash at some moment
//! between may have left, and what the plant read between two of the calls. A run that only reads is a
//! [`read_sectors`]; one that touches some sectors alone is a [`write_sectors`], a [`sync_area`] or a
//! [`write_through`]; runs join.
#![tactic(auto)]

mod bytes;
mod calls;
mod eeprom;
mod faults;
mod media;
mod mem_eeprom;
mod mem_media;
mod mem_sink;
mod mem_source;
mod mem_volumes;
mod net;
mod plant;
mod reading;
mod sink;
mod source;
#[cfg(test)]
mod tests;
mod writing;

pub use bytes::{Bytes, Memory, Names};
pub use calls::CallCounter;
pub use eeprom::Eeprom;
pub use faults::{DevFault, Failed};
pub use media::{Media, read_file};
pub use mem_eeprom::MemEeprom;
pub use mem_media::MemMedia;
pub use mem_sink::MemSink;
pub use mem_source::MemSource;
pub use net::{Arrival, Net, Next};
pub use plant::{Area, Plant};
pub use reading::read_sectors;
pub use sink::{Sink, write_all};
pub use source::{Source, read_source};
pub use writing::{sync_area, write_sectors, write_through};
