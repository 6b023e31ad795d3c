//! The values of the TlvInfo format's fields as text, both ways, without memory: printed as they are
//! shown to people, and read as they are typed.
//!
//! A text is read exactly where it spells a value that a field of the code may have, by the
//! definitions in `specs/`. Each value that a text can spell is spelled by what is printed of it, so
//! reading that gives the value back.
#![tactic(auto)]

mod forms;
mod print;
mod read;
mod table;

pub use print::value_text;
pub use read::parse_value;

#[cfg(test)]
mod tests;
