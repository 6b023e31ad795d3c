//! The syntax tree of a shell program: POSIX.1-2017, "Shell Command Language", without what this shell leaves out.
//!
//! Every sequence is an `Items`, which contracts see as the list of its elements, and `Boxed` is seen as its value.
//! So a tree is plain data in contracts. None of it is a promise of well-formedness: the reader of programs gives that.
#![tactic(auto)]

mod bytes;

pub use bd_dev::{Bytes, Memory};
pub use bytes::{Pattern, Pieces};
use sqlite_items::{Boxed, Items};

/// AND-OR lists, one after the other.
pub type List = Items<AndOr>;
/// The pipelines after the first of an AND-OR list.
pub type Links = Items<Link>;
/// The commands of a pipeline, from left to right.
pub type Commands = Items<Command>;
/// Redirections, in the order in which they are applied.
pub type Redirs = Items<Redir>;
/// Assignments, in order.
pub type Assigns = Items<Assign>;
/// Words, in order.
pub type Words = Items<Word>;
/// The parts `if` and `elif`, in order.
pub type Arms = Items<Arm>;
/// The items of a `case`, in order.
pub type Cases = Items<Case>;
/// A word: what it is made of, from left to right.
pub type Word = Items<Part>;

/// Pipelines joined by `&&` and `||` (section 2.9.3).
#[cycle(tree)]
#[derive(Drop)]
pub struct AndOr {
    pub first: Pipeline,
    pub rest: Links,
}

/// A pipeline that runs after the one before it ended well (`when_ok`: `&&`) or not (`||`).
#[cycle(tree)]
#[derive(Drop)]
pub struct Link {
    pub when_ok: bool,
    pub next: Pipeline,
}

/// Commands joined by `|`, with a `!` before them where `negated` (section 2.9.2).
#[cycle(tree)]
#[derive(Drop)]
pub struct Pipeline {
    pub negated: bool,
    pub commands: Commands,
}

/// A command with its redirections (section 2.9).
#[cycle(tree)]
#[derive(Drop)]
pub struct Command {
    pub form: Form,
    pub redirs: Redirs,
}

/// The forms of commands: simple, compound (section 2.9.4) and function definitions (section 2.9.5).
#[cycle(tree)]
#[derive(Drop)]
pub enum Form {
    /// Assignments, and then words.
    Simple {
        assigns: Assigns,
        words: Words,
    },
    /// `{ list; }`
    Group(List),
    /// `( list )`
    Subshell(List),
    /// `if` with its `elif` parts, and the list after `else`.
    If {
        arms: Arms,
        rest: Option<List>,
    },
    /// `while`, or `until`.
    Loop {
        until: bool,
        test: List,
        body: List,
    },
    /// `for`, with the words after `in`.
    For {
        name: Bytes,
        words: Option<Words>,
        body: List,
    },
    /// `case WORD in .. esac`
    Case {
        word: Word,
        cases: Cases,
    },
    /// `NAME()` and its body.
    Function {
        name: Bytes,
        body: Boxed<Command>,
    },
}

/// A test, and the list that runs where it ends well.
#[cycle(tree)]
#[derive(Drop)]
pub struct Arm {
    pub test: List,
    pub body: List,
}

/// Patterns, and the list that runs where one of them is the first to match.
#[cycle(tree)]
#[derive(Drop)]
pub struct Case {
    pub patterns: Words,
    pub body: List,
}

/// `NAME=WORD`
#[cycle(tree)]
#[derive(Drop)]
pub struct Assign {
    pub name: Bytes,
    pub value: Word,
}

/// A redirection (section 2.7).
#[derive(Clone, Copy, PartialEq, Eq, Debug)]
pub enum Redir {
    /// `>/dev/null`
    OutNull,
    /// `2>/dev/null`
    ErrNull,
    /// `2>&1`
    ErrToOut,
    /// `>&2`
    OutToErr,
}

/// A part of a word. `quoted` tells that it stands within double quotes, and of a byte that any quotes hold it.
#[cycle(tree)]
#[derive(Drop)]
pub enum Part {
    /// A byte that stands for itself, or, not quoted, for what a byte means in a pattern.
    Byte {
        byte: u8,
        quoted: bool,
    },
    /// Quotes with nothing in them.
    EmptyQuotes,
    /// A parameter, in braces or not (sections 2.5 and 2.6.2).
    Param {
        param: Param,
        change: Change,
        quoted: bool,
    },
    /// `$(list)` (section 2.6.3).
    Output {
        list: List,
        quoted: bool,
    },
    /// `$((expression))` (section 2.6.4).
    Arith {
        text: Word,
        quoted: bool,
    },
}

/// A parameter.
#[derive(Drop)]
pub enum Param {
    /// A variable.
    Name(Bytes),
    /// A positional word: `$1` is `Place(1)`, `$0` is `Place(0)`. One past the greatest u32 is kept as that.
    Place(u32),
    /// `$#`
    Count,
    /// `$@`
    Fields,
    /// `$*`
    Joined,
    /// `$?`
    Status,
}

/// What braces do to a parameter's value; `colon` tells that an empty value counts as absent.
#[cycle(tree)]
#[derive(Drop)]
pub enum Change {
    /// The value itself.
    Plain,
    /// `${#NAME}`
    Length,
    /// `${NAME-WORD}`
    Else { colon: bool, word: Word },
    /// `${NAME=WORD}`
    Assign { colon: bool, word: Word },
    /// `${NAME?WORD}`
    Fail { colon: bool, word: Word },
    /// `${NAME+WORD}`
    Also { colon: bool, word: Word },
    /// `${NAME%WORD}`, and the longest end by `%%`.
    CutEnd { longest: bool, word: Word },
    /// `${NAME#WORD}`, and the longest front by `##`.
    CutFront { longest: bool, word: Word },
}
