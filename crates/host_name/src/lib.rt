//! Names of hosts.
//!
//! [`is_host_name`] tells whether a text is one that name servers can be asked for, and [`without_last_dot`] takes off
//! the dot that may end a whole name. Both are exactly what the definitions of `specs/` say, and take no memory.
#![tactic(auto)]

mod host_name;
#[cfg(test)]
mod tests;

pub use host_name::{is_host_name, without_last_dot};
