//! The devices over real files: the trusted edge of the program.
//!
//! Each adapter is made from the path or the stream that it stands for. It tells no content, since
//! no proof can say what a file holds. What is proved is what every device promises: that it
//! answers within its bounds, and that each failure has raised its count of faults.
#![tactic(auto)]

mod calls;
mod eeprom;
mod faults;
mod file_sink;
mod media;
mod paths;
mod plant;
mod sink;
mod source;
#[cfg(test)]
mod tests;

pub use eeprom::FileEeprom;
pub use file_sink::FileSink;
pub use media::FolderMedia;
pub use plant::FilePlant;
pub use sink::OutSink;
pub use source::FileSource;
