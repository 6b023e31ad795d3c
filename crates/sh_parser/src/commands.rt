//! Lists, pipelines and commands (sections 2.9 and 2.10).

ghost use Rattle.std.specs.Prelude.{◌≡◌, ◌≤◌, ◌<◌, ◌+◌, length, MatchOption, MatchResult, OnOk, OnSome, IfSome, IsTrue};
ghost use Rattle.sh_text.specs.Front.{is_word, run};
ghost use Rattle.sh_parser.specs.Grammar.{Phrase, is_separator, begins_nothing, is_nil, is_stuck, is_assignment, assigns_at, single_bar, past_function_name};
ghost use Rattle.sh_parser.specs.Reading.{Reading, Separates, Linked, SimpleReading};
ghost use Rattle.sh_parser.specs.declared.words.Mode.TheVariants.{Bare};

use crate::SyntaxKind;
use crate::reader::{Failed, Reader, append, push};
use crate::redirection::{Direction, direct};
use crate::words::Mode;
use sh_text::{
    Class, begins_name, begins_with, ends_list, first, follow, gap, is_closing, is_misplaced,
    is_opening, is_redirection, is_word, joined, past, reserved, run,
};
use sh_tree::{
    AndOr, Assign, Bytes, Command, Commands, Form, Link, List, Pipeline, Redir, Redirs, Word,
};
use sqlite_items::{Boxed, Items};
use std::alloc::Global;

impl<'a> Reader<'a> {
    /// AND-OR lists, up to what ends a list. There may be none.
    #[cycle(read)]
    pub fn list(&mut self, alloc: Global, depth: u32) -> Result<List, Failed>
        ensures reads { Reading (Phrase.list depth) self.old.rest.now self.new.rest.now result }
        ensures shorter { length self.new.rest.now ≤ length self.old.rest.now }
    {
        let mut all = Items::new(alloc);
        'items: loop {
            self.rest = gap(self.rest, true);
            if ends_list(self.rest) {
                return Ok(all);
            }
            let item = self.and_or(alloc, depth)?;
            push(&mut all, item)?;
            self.rest = gap(self.rest, false);
            if ends_list(self.rest) {
                return Ok(all);
            }
            self.separator(depth)?;
        }
    }

    // goes past a `;` or a line end
    fn separator(&mut self, depth: u32) -> Result<(), Failed>
        ensures separates { Separates depth self.old.rest.now self.new.rest.now result }
        ensures shorter { length self.new.rest.now ≤ length self.old.rest.now }
        ensures strict { OnOk result (length self.new.rest.now < length self.old.rest.now) }
    {
        match first(self.rest) {
            None => Err(self.stray(depth)),
            Some((c, rest)) => {
                if is_separator(c) {
                    self.rest = rest;
                    Ok(())
                } else {
                    Err(self.stray(depth))
                }
            }
        }
    }

    /// A list that isn't empty.
    #[cycle(read)]
    pub fn some_list(&mut self, alloc: Global, depth: u32) -> Result<List, Failed>
        ensures reads { Reading (Phrase.some_list depth) self.old.rest.now self.new.rest.now result }
        ensures shorter { length self.new.rest.now ≤ length self.old.rest.now }
    {
        self.rest = gap(self.rest, true);
        if ends_list(self.rest) {
            return Err(self.stray(depth));
        }
        self.list(alloc, depth)
    }

    #[cycle(read)]
    fn and_or(&mut self, alloc: Global, depth: u32) -> Result<AndOr, Failed>
        ensures reads { Reading (Phrase.and_or depth) self.old.rest.now self.new.rest.now result }
        ensures shorter { length self.new.rest.now ≤ length self.old.rest.now }
    {
        let first = self.pipeline(alloc, depth)?;
        let mut rest = Items::new(alloc);
        'links: loop {
            match self.link() {
                None => return Ok(AndOr { first, rest }),
                Some(when_ok) => {
                    let next = self.pipeline(alloc, depth)?;
                    push(&mut rest, Link { when_ok, next })?;
                }
            }
        }
    }

    // goes past `&&` (true) or `||` (false) and line ends, if they follow
    fn link(&mut self) -> Option<bool>
        ensures linked { Linked self.old.rest.now self.new.rest.now result }
        ensures shorter { length self.new.rest.now ≤ length self.old.rest.now }
        ensures strict { OnSome result (length self.new.rest.now < length self.old.rest.now) }
    {
        self.rest = gap(self.rest, false);
        match follow(b"&&", self.rest) {
            Some(rest) => {
                self.rest = gap(rest, true);
                Some(true)
            }
            None => match follow(b"||", self.rest) {
                Some(rest) => {
                    self.rest = gap(rest, true);
                    Some(false)
                }
                None => None,
            },
        }
    }

    #[cycle(read)]
    fn pipeline(&mut self, alloc: Global, depth: u32) -> Result<Pipeline, Failed>
        ensures reads { Reading (Phrase.pipeline depth) self.old.rest.now self.new.rest.now result }
        ensures shorter { length self.new.rest.now ≤ length self.old.rest.now }
    {
        match reserved(b"!", self.rest) {
            Some(rest) => {
                self.rest = gap(rest, false);
                let commands = self.commands(alloc, depth)?;
                Ok(Pipeline {
                    negated: true,
                    commands,
                })
            }
            None => {
                let commands = self.commands(alloc, depth)?;
                Ok(Pipeline {
                    negated: false,
                    commands,
                })
            }
        }
    }

    #[cycle(read)]
    fn commands(&mut self, alloc: Global, depth: u32) -> Result<Commands, Failed>
        ensures reads { Reading (Phrase.commands depth) self.old.rest.now self.new.rest.now result }
        ensures shorter { length self.new.rest.now ≤ length self.old.rest.now }
    {
        let mut commands = Items::new(alloc);
        'commands: loop {
            let command = self.command(alloc, depth)?;
            push(&mut commands, command)?;
            self.rest = gap(self.rest, false);
            match single_bar(self.rest) {
                None => return Ok(commands),
                Some(rest) => self.rest = gap(rest, true),
            }
        }
    }

    #[cycle(read)]
    fn command(&mut self, alloc: Global, depth: u32) -> Result<Command, Failed>
        ensures reads { Reading (Phrase.command depth) self.old.rest.now self.new.rest.now result }
        ensures shorter { length self.new.rest.now ≤ length self.old.rest.now }
    {
        if is_opening(self.rest) {
            return self.enclosed(alloc, depth);
        }
        if begins_nothing(self.rest) {
            return Err(self.stray(depth));
        }
        match past_function_name(self.rest) {
            Some(rest) => self.function(alloc, rest, depth),
            None => self.simple(alloc, depth),
        }
    }

    // a compound command and its redirections
    #[cycle(read)]
    fn enclosed(&mut self, alloc: Global, depth: u32) -> Result<Command, Failed>
        ensures reads { Reading (Phrase.enclosed depth) self.old.rest.now self.new.rest.now result }
        ensures shorter { length self.new.rest.now ≤ length self.old.rest.now }
    {
        let form = self.compound(alloc, depth)?;
        let redirs = self.redirs(alloc, depth)?;
        if is_stuck(is_bare(&redirs), self.rest) {
            return Err(self.stray(depth));
        }
        Ok(Command { form, redirs })
    }

    fn redirs(&mut self, alloc: Global, depth: u32) -> Result<Redirs, Failed>
        ensures reads { Reading (Phrase.redirs depth) self.old.rest.now self.new.rest.now result }
        ensures shorter { length self.new.rest.now ≤ length self.old.rest.now }
    {
        let mut redirs = Items::new(alloc);
        'redirs: loop {
            self.rest = gap(self.rest, false);
            if !is_redirection(self.rest) {
                return Ok(redirs);
            }
            let redir = self.redir(depth)?;
            push(&mut redirs, redir)?;
        }
    }

    fn redir(&mut self, depth: u32) -> Result<Redir, Failed>
        ensures reads { Reading (Phrase.redir depth) self.old.rest.now self.new.rest.now result }
        ensures shorter { length self.new.rest.now ≤ length self.old.rest.now }
        ensures strict { OnOk result (length self.new.rest.now < length self.old.rest.now) }
    {
        let directed = direct(self.rest);
        match directed.direction {
            Direction::To(redir) => {
                self.rest = directed.rest;
                Ok(redir)
            }
            Direction::LeftOut => Err(Failed::Fault(SyntaxKind::LeftOut)),
            Direction::Open => {
                self.rest = directed.rest;
                Err(Failed::Fault(SyntaxKind::Unclosed))
            }
            Direction::Stopped => {
                self.rest = directed.rest;
                Err(self.stray(depth))
            }
        }
    }

    // `rest` follows the `(`
    #[cycle(read)]
    fn function(&mut self, alloc: Global, rest: &'a [u8], depth: u32) -> Result<Command, Failed>
        requires follows { past_function_name self.old.rest.now ≡ Some rest.now }
        requires within { length rest.now ≤ length self.old.rest.now }
        ensures reads { Reading (Phrase.function depth) self.old.rest.now self.new.rest.now result }
        ensures shorter { length self.new.rest.now ≤ length self.old.rest.now }
    {
        let name = name_at(alloc, self.rest)?;
        self.rest = gap(rest, false);
        self.need(b")", depth)?;
        self.rest = gap(self.rest, true);
        if !is_opening(self.rest) {
            return Err(self.stray(depth));
        }
        let body = self.enclosed(alloc, depth)?;
        match Boxed::new(alloc, body) {
            Ok(body) => Ok(Command {
                form: Form::Function { name, body },
                redirs: Items::new(alloc),
            }),
            Err(_) => Err(Failed::Memory),
        }
    }

    // assignments while there are no words, words, and redirections among them
    #[cycle(read)]
    fn simple(&mut self, alloc: Global, depth: u32) -> Result<Command, Failed>
        ensures reads { SimpleReading depth self.old.rest.now self.new.rest.now result }
        ensures shorter { length self.new.rest.now ≤ length self.old.rest.now }
    {
        let mut assigns = Items::new(alloc);
        let mut words = Items::new(alloc);
        let mut redirs = Items::new(alloc);
        let mut seen = false;
        'pieces: loop {
            self.rest = gap(self.rest, false);
            if is_redirection(self.rest) {
                let redir = self.redir(depth)?;
                push(&mut redirs, redir)?;
            } else if !is_word(self.rest) {
                return Ok(Command {
                    form: Form::Simple { assigns, words },
                    redirs,
                });
            } else if assigns_at(seen, self.rest) {
                let assign = self.assign(alloc, depth)?;
                push(&mut assigns, assign)?;
            } else {
                let word = self.word(alloc, depth)?;
                push(&mut words, word)?;
                seen = true;
            }
        }
    }

    // `NAME=` and a word, which may be empty
    #[cycle(read)]
    fn assign(&mut self, alloc: Global, depth: u32) -> Result<Assign, Failed>
        ensures reads { Reading (Phrase.assign depth) self.old.rest.now self.new.rest.now result }
        ensures shorter { length self.new.rest.now ≤ length self.old.rest.now }
        ensures strict { OnOk result (length self.new.rest.now < length self.old.rest.now) }
    {
        let name = name_at(alloc, self.rest)?;
        self.rest = past(Class::Name, self.rest);
        self.need(b"=", depth)?;
        let value = self.parts(alloc, Mode::Bare, depth)?;
        Ok(Assign { name, value })
    }

    /// A word that isn't empty.
    #[cycle(read)]
    pub fn word(&mut self, alloc: Global, depth: u32) -> Result<Word, Failed>
        requires { IsTrue (is_word self.old.rest.now) }
        ensures reads { Reading (Phrase.parts Bare depth) self.old.rest.now self.new.rest.now result }
        ensures shorter { length self.new.rest.now ≤ length self.old.rest.now }
        ensures strict { OnOk result (length self.new.rest.now < length self.old.rest.now) }
    {
        self.rest = joined(self.rest);
        let mut word = self.piece(alloc, Mode::Bare, depth)?;
        let more = self.parts(alloc, Mode::Bare, depth)?;
        append(&mut word, more)?;
        Ok(word)
    }
}

/// The name at the front of a text.
pub fn name_at(alloc: Global, text: &[u8]) -> Result<Bytes, Failed>
    ensures { MatchResult result (λ name. name ≡ run Class.Name text.now) (λ e. e ≡ Failed.Memory) }
{
    match run(alloc, Class::Name, text) {
        Ok(name) => Ok(name),
        Err(_) => Err(Failed::Memory),
    }
}

// whether a `;` or a line end
fn is_separator(c: u8) -> bool
    ensures { result ≡ is_separator c }
{
    c == 10 || c == 59
}

// whether no command begins here
#[tactic(auto, unfolding(crate::specs::Grammar::begins_nothing))]
fn begins_nothing(text: &[u8]) -> bool
    ensures { result ≡ begins_nothing text.now }
{
    is_misplaced(text) || !(is_word(text) || is_redirection(text))
}

fn is_bare(redirs: &Redirs) -> bool
    ensures { result ≡ is_nil redirs.now }
{
    match redirs.as_slice() {
        [] => true,
        [_, ..] => false,
    }
}

// whether a word stands here that can't follow a compound command, with redirections or bare
#[tactic(auto, unfolding(crate::specs::Grammar::is_stuck))]
fn is_stuck(bare: bool, text: &[u8]) -> bool
    ensures { result ≡ is_stuck bare text.now }
{
    is_word(text) && !(bare && is_closing(text))
}

// whether `NAME=` stands here
#[tactic(auto, unfolding(crate::specs::Grammar::is_assignment))]
fn is_assignment(text: &[u8]) -> bool
    ensures { result ≡ is_assignment text.now }
{
    begins_name(text) && begins_with(b"=", past(Class::Name, text))
}

// whether an assignment stands here, before the first word
#[tactic(auto, unfolding(crate::specs::Grammar::assigns_at))]
fn assigns_at(seen: bool, text: &[u8]) -> bool
    ensures { result ≡ assigns_at seen text.now }
{
    !seen && is_assignment(text)
}

/// What follows a `|` that isn't `||`.
#[tactic(auto, unfolding(crate::specs::Grammar::single_bar))]
pub fn single_bar(text: &[u8]) -> Option<&[u8]>
    ensures same { MatchOption result (single_bar text.now ≡ None) (λ r. single_bar text.now ≡ Some r.now) }
    ensures shorter { IfSome result (λ r. length r.now < length text.now) }
{
    if begins_with(b"||", text) {
        return None;
    }
    follow(b"|", text)
}

// what follows `NAME (`
#[tactic(auto, unfolding(crate::specs::Grammar::past_function_name))]
fn past_function_name(text: &[u8]) -> Option<&[u8]>
    ensures same { MatchOption result (past_function_name text.now ≡ None) (λ r. past_function_name text.now ≡ Some r.now) }
    ensures shorter { IfSome result (λ r. length r.now ≤ length text.now) }
{
    if !begins_name(text) {
        return None;
    }
    follow(b"(", gap(past(Class::Name, text), false))
}
