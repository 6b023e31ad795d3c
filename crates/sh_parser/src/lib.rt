//! Reads the text of a shell program: its tree, or the fault that comes first in it.
//! The language is POSIX.1-2017, "Shell Command Language", without what this shell leaves out.
#![tactic(auto)]

mod braces;
mod commands;
mod compound;
mod reader;
mod redirection;
mod whole;
mod words;

pub use sh_tree::{
    AndOr, Arm, Arms, Assign, Assigns, Bytes, Case, Cases, Change, Command, Commands, Form, Link,
    Links, List, Memory, Param, Part, Pattern, Pieces, Pipeline, Redir, Redirs, Word, Words,
};
pub use whole::{Program, parse};

/// What is wrong with a text that is no program.
#[derive(Clone, Copy, PartialEq, Eq, Debug)]
pub enum SyntaxKind {
    /// A token or a `$` form that can't stand after the text before it.
    Unexpected,
    /// The text ends within a form.
    Unclosed,
    /// A form of the standard that this shell leaves out.
    LeftOut,
    /// Forms that stand in each other more than 64 deep.
    Deep,
    /// A 00 byte.
    Nul,
}

/// Why a text gave no tree.
#[derive(Clone, Copy, PartialEq, Eq, Debug)]
pub enum SyntaxFault {
    /// The fault that comes first, on this line, counted from 1.
    Bad { line: u64, kind: SyntaxKind },
    /// Out of memory.
    Memory,
}
