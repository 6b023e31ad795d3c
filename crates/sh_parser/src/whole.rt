//! The reading of a whole text.

ghost use Rattle.std.specs.Prelude.{◌≡◌, ◌⊎◌, ℕ, List, Err, IfOk, IfErr, MatchResult};
ghost use Rattle.sh_tree.specs.declared.AndOr.{AndOr};
ghost use Rattle.sh_parser.specs.declared.SyntaxKind.{SyntaxKind};
ghost use Rattle.sh_parser.specs.Grammar.{IsProgram};
ghost use Rattle.sh_parser.specs.Laws.{Once, IsFault, line_at};
ghost use Rattle.sh_parser.specs.Reading.{WholeReading};

use crate::SyntaxFault;
use crate::reader::{Failed, Reader};
use sh_text::first;
use sh_tree::List;
use std::alloc::Global;
use std::marker::Model;

/// A program: AND-OR lists, one after the other, as which contracts see it.
#[derive(Drop)]
pub struct Program {
    list: List,
}

impl Model for Program {
    ghost use Rattle.std.specs.Prelude.{List};
    ghost use Rattle.std.specs.Coded.{codes};
    ghost use Rattle.sh_tree.specs.declared.AndOr.{AndOr};
    ghost use Rattle.sh_tree.specs.contracts.AndOr as tree;

    ghost Value = { List AndOr };

    ghost view = { λ p. p.list };

    ghost coded = { Prim.hlevel (codes, tree.the_row.coded) };
}

impl Program {
    /// Its AND-OR lists.
    pub fn list(&self) -> &List
        ensures { result.now ≡ self.now }
    {
        &self.list
    }
}

/// A text is at most one program, never both a program and faulty, and it has one first fault at most.
pub fn one_reading()
    ensures { Once }
{}

/// How deep forms may stand in each other.
pub const DEPTH: u32 = 64;

/// Reads a whole text as a program (`program`), or tells which fault comes first in it, with its line (`fault`). It gives
/// each program (`only`) and the first fault of each faulty text (`exact`), unless memory runs out.
pub fn parse(alloc: Global, text: &[u8]) -> Result<Program, SyntaxFault>
    ensures program { IfOk result (λ p. IsProgram text.now p) }
    ensures only { (tree : List AndOr) → IsProgram text.now tree → IfErr result (λ e. e ≡ SyntaxFault.Memory) }
    ensures fault { (line : ℕ) (kind : SyntaxKind) → result ≡ Err (SyntaxFault.Bad line kind) → IsFault text.now line kind }
    ensures exact { (line : ℕ) (kind : SyntaxKind) → IsFault text.now line kind
        → MatchResult result (λ _. ⊥) (λ e. (e ≡ SyntaxFault.Bad line kind) ⊎ (e ≡ SyntaxFault.Memory)) }
{
    let mut reader = Reader { rest: text };
    match reader.whole(alloc) {
        Ok(list) => Ok(Program { list }),
        Err(Failed::Memory) => Err(SyntaxFault::Memory),
        Err(Failed::Fault(kind)) => {
            let line = line_of(text, reader.rest);
            Err(SyntaxFault::Bad { line, kind })
        }
    }
}

impl Reader<'_> {
    pub fn whole(&mut self, alloc: Global) -> Result<List, Failed>
        ensures { WholeReading self.old.rest.now self.new.rest.now result }
    {
        let list = self.list(alloc, DEPTH)?;
        match first(self.rest) {
            None => Ok(list),
            Some(_) => Err(self.stray(DEPTH)),
        }
    }
}

/// The line of the place at which this rest of a text begins, counted from 1.
pub fn line_of(text: &[u8], rest: &[u8]) -> u64
    ensures { result ≡ line_at text.now rest.now }
{
    let end = text.len().saturating_sub(rest.len());
    1 + text[..end].iter().filter(|c| **c == 10).count() as u64
}
