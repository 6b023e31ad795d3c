//! The reader, and how its methods fail.

ghost use Rattle.std.specs.Prelude.{◌≡◌, ◌≤◌, ◌<◌, ◌+◌, ◌++◌, ◌∷◌, [], length, MatchResult, OnOk};
ghost use Rattle.sh_text.specs.Front.{follow, reserved};
ghost use Rattle.sh_parser.specs.Faults.{stray_kind, stray_place, misdirected, dollar_kind};
ghost use Rattle.sh_parser.specs.Reading.{Follows};

use crate::SyntaxKind;
use crate::redirection::{Direction, direct};
use bd_dev::Memory;
use sh_text::{begins_with, first, follow, is_end, is_redirection, reserved, tail};
use sqlite_items::Items;

/// Why a reading ended: a fault, which is where the reader then stands, or want of memory.
#[derive(Clone, Copy)]
pub enum Failed {
    Fault(SyntaxKind),
    Memory,
}

impl From<Memory> for Failed {
    fn from(_error: Memory) -> Failed
        ensures { result ≡ Failed.Memory }
    {
        Failed::Memory
    }
}

/// The text that is left. After a fault it begins where the fault is.
#[derive(Drop)]
pub struct Reader<'a> {
    pub rest: &'a [u8],
}

pub fn push<T: Drop>(items: &mut Items<T>, item: T) -> Result<(), Failed>
    ensures { MatchResult result (λ _. items.new ≡ items.old ++ item ∷ []) (λ e. e ≡ Failed.Memory) }
{
    match items.push(item) {
        Ok(()) => Ok(()),
        Err(_) => Err(Failed::Memory),
    }
}

pub fn append<T: Drop>(items: &mut Items<T>, more: Items<T>) -> Result<(), Failed>
    ensures { MatchResult result (λ _. items.new ≡ items.old ++ more) (λ e. e ≡ Failed.Memory) }
{
    match items.append(more) {
        Ok(()) => Ok(()),
        Err(_) => Err(Failed::Memory),
    }
}

/// The kind of the fault at a token that can't stand where it stands.
#[tactic(auto, unfolding(crate::specs::Faults::stray_kind))]
pub fn stray_kind(text: &[u8], depth: u32) -> SyntaxKind
    ensures { result ≡ stray_kind depth text.now }
{
    match first(text) {
        None => SyntaxKind::Unclosed,
        Some((c, rest)) => {
            if is_end(text) {
                SyntaxKind::Unclosed
            } else if is_redirection(text) {
                misdirected(direct(text).direction)
            } else if c == 0 {
                SyntaxKind::Nul
            } else if c == 96 || (c == 38 && !begins_with(b"&", rest)) {
                SyntaxKind::LeftOut
            } else if c == 36 {
                dollar_kind(rest, depth)
            } else {
                SyntaxKind::Unexpected
            }
        }
    }
}

fn misdirected(direction: Direction) -> SyntaxKind
    ensures { result ≡ misdirected direction }
{
    match direction {
        Direction::To(_redir) => SyntaxKind::Unexpected,
        Direction::LeftOut => SyntaxKind::LeftOut,
        Direction::Open => SyntaxKind::Unexpected,
        Direction::Stopped => SyntaxKind::Unexpected,
    }
}

fn dollar_kind(text: &[u8], depth: u32) -> SyntaxKind
    ensures { result ≡ dollar_kind depth text.now }
{
    if begins_with(b"$", text) || begins_with(b"!", text) || begins_with(b"-", text) {
        SyntaxKind::LeftOut
    } else if depth == 0 && (begins_with(b"(", text) || begins_with(b"{", text)) {
        SyntaxKind::Deep
    } else {
        SyntaxKind::Unexpected
    }
}

impl Reader<'_> {
    /// The fault at the token at which the reader stands.
    #[tactic(auto, unfolding(crate::specs::Faults::stray_place))]
    pub fn stray(&mut self, depth: u32) -> Failed
        ensures kind { result ≡ Failed.Fault (stray_kind depth self.old.rest.now) }
        ensures place { self.new.rest.now ≡ stray_place self.old.rest.now }
        ensures shorter { length self.new.rest.now ≤ length self.old.rest.now }
    {
        let kind = stray_kind(self.rest, depth);
        if is_end(self.rest) {
            self.rest = tail(self.rest);
        }
        Failed::Fault(kind)
    }

    /// Goes past these bytes.
    pub fn need(&mut self, word: &[u8], depth: u32) -> Result<(), Failed>
        ensures follows { Follows (follow word.now self.old.rest.now) depth self.old.rest.now self.new.rest.now result }
        ensures shorter { length self.new.rest.now ≤ length self.old.rest.now }
        ensures strict { OnOk result (length self.new.rest.now + length word.now ≤ length self.old.rest.now) }
    {
        match follow(word, self.rest) {
            None => Err(self.stray(depth)),
            Some(rest) => {
                self.rest = rest;
                Ok(())
            }
        }
    }

    /// Goes past this reserved word.
    pub fn need_word(&mut self, word: &[u8], depth: u32) -> Result<(), Failed>
        ensures follows { Follows (reserved word.now self.old.rest.now) depth self.old.rest.now self.new.rest.now result }
        ensures shorter { length self.new.rest.now ≤ length self.old.rest.now }
        ensures strict { OnOk result (length self.new.rest.now + length word.now ≤ length self.old.rest.now) }
    {
        match reserved(word, self.rest) {
            None => Err(self.stray(depth)),
            Some(rest) => {
                self.rest = rest;
                Ok(())
            }
        }
    }
}
