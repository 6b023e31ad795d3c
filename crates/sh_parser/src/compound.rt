//! Compound commands (section 2.9.4).

ghost use Rattle.std.specs.Prelude.{◌≡◌, ◌≤◌, ◌<◌, ◌+◌, length, MatchOption, OnOk, IfSome};
ghost use Rattle.sh_parser.specs.Grammar.{Phrase, opening, opened, is_name, single_semicolon};
ghost use Rattle.sh_parser.specs.Reading.{Reading, FormReading, BranchesReading, EndsWords};

use crate::SyntaxKind;
use crate::commands::{name_at, single_bar};
use crate::reader::{Failed, Reader, push};
use sh_text::{
    Class, begins_name, begins_with, ends_token, follow, gap, is_reserved, is_word, past, reserved,
};
use sh_tree::{Arm, Case, Cases, Form, List, Words};
use sqlite_items::Items;
use std::alloc::Global;

/// Which compound command begins at a place.
#[derive(Clone, Copy)]
pub enum Opening {
    Subshell,
    Group,
    If,
    While,
    Until,
    For,
    Case,
    Nothing,
}

#[tactic(auto, unfolding(crate::specs::Grammar::opening))]
fn opening_at(text: &[u8]) -> Opening
    ensures { result ≡ opening text.now }
{
    if begins_with(b"(", text) {
        Opening::Subshell
    } else if is_reserved(b"{", text) {
        Opening::Group
    } else if is_reserved(b"if", text) {
        Opening::If
    } else if is_reserved(b"while", text) {
        Opening::While
    } else if is_reserved(b"until", text) {
        Opening::Until
    } else if is_reserved(b"for", text) {
        Opening::For
    } else if is_reserved(b"case", text) {
        Opening::Case
    } else {
        Opening::Nothing
    }
}

impl Reader<'_> {
    #[cycle(read)]
    pub fn compound(&mut self, alloc: Global, depth: u32) -> Result<Form, Failed>
        ensures reads { Reading (Phrase.compound depth) self.old.rest.now self.new.rest.now result }
        ensures shorter { length self.new.rest.now ≤ length self.old.rest.now }
    {
        if depth == 0 {
            return Err(Failed::Fault(SyntaxKind::Deep));
        }
        let opening = opening_at(self.rest);
        self.form(alloc, opening, depth - 1)
    }

    // the form that begins so
    #[cycle(read)]
    fn form(&mut self, alloc: Global, opening: Opening, depth: u32) -> Result<Form, Failed>
        ensures reads { FormReading opening depth self.old.rest.now self.new.rest.now result }
        ensures shorter { length self.new.rest.now ≤ length self.old.rest.now }
    {
        match opening {
            Opening::Subshell => {
                self.need(b"(", depth)?;
                let list = self.some_list(alloc, depth)?;
                self.need(b")", depth)?;
                Ok(Form::Subshell(list))
            }
            Opening::Group => {
                self.need_word(b"{", depth)?;
                let list = self.some_list(alloc, depth)?;
                self.need_word(b"}", depth)?;
                Ok(Form::Group(list))
            }
            Opening::If => {
                self.need_word(b"if", depth)?;
                self.branches(alloc, depth)
            }
            Opening::While => {
                self.need_word(b"while", depth)?;
                self.turns(alloc, false, depth)
            }
            Opening::Until => {
                self.need_word(b"until", depth)?;
                self.turns(alloc, true, depth)
            }
            Opening::For => {
                self.need_word(b"for", depth)?;
                self.each(alloc, depth)
            }
            Opening::Case => {
                self.need_word(b"case", depth)?;
                self.choice(alloc, depth)
            }
            Opening::Nothing => Err(self.stray(depth)),
        }
    }

    // after `if`
    #[cycle(read)]
    fn branches(&mut self, alloc: Global, depth: u32) -> Result<Form, Failed>
        ensures reads { BranchesReading depth self.old.rest.now self.new.rest.now result }
        ensures shorter { length self.new.rest.now ≤ length self.old.rest.now }
    {
        let mut arms = Items::new(alloc);
        'arms: loop {
            let test = self.some_list(alloc, depth)?;
            self.need_word(b"then", depth)?;
            let body = self.some_list(alloc, depth)?;
            push(&mut arms, Arm { test, body })?;
            match reserved(b"elif", self.rest) {
                Some(rest) => self.rest = rest,
                None => {
                    let rest = self.otherwise(alloc, depth)?;
                    return Ok(Form::If { arms, rest });
                }
            }
        }
    }

    // `else` and its list, if they are there, and `fi`
    #[cycle(read)]
    fn otherwise(&mut self, alloc: Global, depth: u32) -> Result<Option<List>, Failed>
        ensures reads { Reading (Phrase.otherwise depth) self.old.rest.now self.new.rest.now result }
        ensures shorter { length self.new.rest.now ≤ length self.old.rest.now }
    {
        match reserved(b"else", self.rest) {
            Some(rest) => {
                self.rest = rest;
                let list = self.some_list(alloc, depth)?;
                self.need_word(b"fi", depth)?;
                Ok(Some(list))
            }
            None => {
                self.need_word(b"fi", depth)?;
                Ok(None)
            }
        }
    }

    // after `while` or `until`
    #[cycle(read)]
    fn turns(&mut self, alloc: Global, until: bool, depth: u32) -> Result<Form, Failed>
        ensures reads { Reading (Phrase.turns until depth) self.old.rest.now self.new.rest.now result }
        ensures shorter { length self.new.rest.now ≤ length self.old.rest.now }
    {
        let test = self.some_list(alloc, depth)?;
        let body = self.do_group(alloc, depth)?;
        Ok(Form::Loop { until, test, body })
    }

    // `do`, a list and `done`
    #[cycle(read)]
    fn do_group(&mut self, alloc: Global, depth: u32) -> Result<List, Failed>
        ensures reads { Reading (Phrase.do_group depth) self.old.rest.now self.new.rest.now result }
        ensures shorter { length self.new.rest.now ≤ length self.old.rest.now }
    {
        self.need_word(b"do", depth)?;
        let body = self.some_list(alloc, depth)?;
        self.need_word(b"done", depth)?;
        Ok(body)
    }

    // after `for`
    #[cycle(read)]
    fn each(&mut self, alloc: Global, depth: u32) -> Result<Form, Failed>
        ensures reads { Reading (Phrase.each depth) self.old.rest.now self.new.rest.now result }
        ensures shorter { length self.new.rest.now ≤ length self.old.rest.now }
    {
        self.rest = gap(self.rest, false);
        if !is_name(self.rest) {
            return Err(self.stray(depth));
        }
        let name = name_at(alloc, self.rest)?;
        self.rest = gap(past(Class::Name, self.rest), false);
        let words = self.each_words(alloc, depth)?;
        let body = self.do_group(alloc, depth)?;
        Ok(Form::For { name, words, body })
    }

    // the words after `in`, if there is an `in`, up to `do`
    #[cycle(read)]
    fn each_words(&mut self, alloc: Global, depth: u32) -> Result<Option<Words>, Failed>
        ensures reads { Reading (Phrase.each_words depth) self.old.rest.now self.new.rest.now result }
        ensures shorter { length self.new.rest.now ≤ length self.old.rest.now }
    {
        match single_semicolon(self.rest) {
            Some(rest) => {
                self.rest = gap(rest, true);
                Ok(None)
            }
            None => {
                self.rest = gap(self.rest, true);
                match reserved(b"in", self.rest) {
                    None => Ok(None),
                    Some(rest) => {
                        self.rest = rest;
                        let words = self.words(alloc, depth)?;
                        self.end_words(depth)?;
                        Ok(Some(words))
                    }
                }
            }
        }
    }

    // behind the words of `for`: a `;` or a line end, and line ends
    #[tactic(auto, unfolding(crate::specs::Grammar::ended_words))]
    fn end_words(&mut self, depth: u32) -> Result<(), Failed>
        ensures ends { EndsWords depth self.old.rest.now self.new.rest.now result }
        ensures shorter { length self.new.rest.now ≤ length self.old.rest.now }
    {
        match single_semicolon(self.rest) {
            Some(rest) => {
                self.rest = gap(rest, true);
                Ok(())
            }
            None => {
                self.need(b"\n", depth)?;
                self.rest = gap(self.rest, true);
                Ok(())
            }
        }
    }

    #[cycle(read)]
    fn words(&mut self, alloc: Global, depth: u32) -> Result<Words, Failed>
        ensures reads { Reading (Phrase.words depth) self.old.rest.now self.new.rest.now result }
        ensures shorter { length self.new.rest.now ≤ length self.old.rest.now }
    {
        let mut words = Items::new(alloc);
        'words: loop {
            self.rest = gap(self.rest, false);
            if !is_word(self.rest) {
                return Ok(words);
            }
            let word = self.word(alloc, depth)?;
            push(&mut words, word)?;
        }
    }

    // after `case`
    #[cycle(read)]
    fn choice(&mut self, alloc: Global, depth: u32) -> Result<Form, Failed>
        ensures reads { Reading (Phrase.choice depth) self.old.rest.now self.new.rest.now result }
        ensures shorter { length self.new.rest.now ≤ length self.old.rest.now }
    {
        self.rest = gap(self.rest, false);
        if !is_word(self.rest) {
            return Err(self.stray(depth));
        }
        let word = self.word(alloc, depth)?;
        self.rest = gap(self.rest, true);
        self.need_word(b"in", depth)?;
        let cases = self.cases(alloc, depth)?;
        Ok(Form::Case { word, cases })
    }

    // items up to `esac`
    #[cycle(read)]
    fn cases(&mut self, alloc: Global, depth: u32) -> Result<Cases, Failed>
        ensures reads { Reading (Phrase.cases depth) self.old.rest.now self.new.rest.now result }
        ensures shorter { length self.new.rest.now ≤ length self.old.rest.now }
    {
        let mut cases = Items::new(alloc);
        'cases: loop {
            self.rest = gap(self.rest, true);
            match reserved(b"esac", self.rest) {
                Some(rest) => {
                    self.rest = rest;
                    return Ok(cases);
                }
                None => {}
            }
            let case = self.case(alloc, depth)?;
            push(&mut cases, case)?;
            match follow(b";;", self.rest) {
                Some(rest) => self.rest = rest,
                None => {
                    self.need_word(b"esac", depth)?;
                    return Ok(cases);
                }
            }
        }
    }

    #[cycle(read)]
    fn case(&mut self, alloc: Global, depth: u32) -> Result<Case, Failed>
        ensures reads { Reading (Phrase.case_item depth) self.old.rest.now self.new.rest.now result }
        ensures shorter { length self.new.rest.now ≤ length self.old.rest.now }
    {
        self.rest = past_paren(self.rest);
        let patterns = self.patterns(alloc, depth)?;
        let body = self.list(alloc, depth)?;
        Ok(Case { patterns, body })
    }

    // patterns with `|` between them, up to the `)`
    #[cycle(read)]
    fn patterns(&mut self, alloc: Global, depth: u32) -> Result<Words, Failed>
        ensures reads { Reading (Phrase.patterns depth) self.old.rest.now self.new.rest.now result }
        ensures shorter { length self.new.rest.now ≤ length self.old.rest.now }
    {
        let mut patterns = Items::new(alloc);
        'patterns: loop {
            if !is_word(self.rest) {
                return Err(self.stray(depth));
            }
            let pattern = self.word(alloc, depth)?;
            push(&mut patterns, pattern)?;
            self.rest = gap(self.rest, false);
            match follow(b")", self.rest) {
                Some(rest) => {
                    self.rest = rest;
                    return Ok(patterns);
                }
                None => {}
            }
            match single_bar(self.rest) {
                Some(rest) => self.rest = gap(rest, false),
                None => return Err(self.stray(depth)),
            }
        }
    }
}

// without a `(` before the patterns of an item, and the blanks behind it
fn past_paren(text: &[u8]) -> &[u8]
    ensures same { result.now ≡ opened text.now }
    ensures shorter { length result.now ≤ length text.now }
{
    match follow(b"(", text) {
        Some(rest) => gap(rest, false),
        None => text,
    }
}

// a word that is a name, as `for` wants it
#[tactic(auto, unfolding(crate::specs::Grammar::is_name))]
fn is_name(text: &[u8]) -> bool
    ensures { result ≡ is_name text.now }
{
    begins_name(text) && ends_token(past(Class::Name, text))
}

// what follows a `;` that isn't `;;`
#[tactic(auto, unfolding(crate::specs::Grammar::single_semicolon))]
fn single_semicolon(text: &[u8]) -> Option<&[u8]>
    ensures same { MatchOption result (single_semicolon text.now ≡ None) (λ r. single_semicolon text.now ≡ Some r.now) }
    ensures shorter { IfSome result (λ r. length r.now < length text.now) }
{
    if begins_with(b";;", text) {
        return None;
    }
    follow(b";", text)
}
