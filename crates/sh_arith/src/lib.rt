//! Arithmetic of the shell: what the text between `$((` and `))` says after its expansion.
//!
//! [`evaluate`] reads an expression with the operators, the precedence and the rules of C (POSIX.1-2017, Shell Command
//! Language, 2.6.4; ISO C, 6.5) on signed numbers of 64 bits, and takes no memory. The grammar and what an expression
//! comes to are said in `specs/`: a text has at most one expression, and the answer is its value, or [`Bad`] exactly
//! where there is none.
#![tactic(auto)]

mod constant;
mod names;
mod number;
mod operator;
mod reader;
#[cfg(test)]
mod tests;
mod text;
mod token;

pub use names::lookup;
pub use operator::{Operator, Sign};
pub use reader::{Bad, evaluate};
