//! Words: quotes, parameters and substitutions (sections 2.2, 2.5 and 2.6).

ghost use Rattle.std.specs.Prelude.{◌≡◌, ◌≤◌, ◌<◌, ◌+◌, ◌++◌, ◌∷◌, [], length, IsTrue, not, OnOk, MatchResult, true, false};
ghost use Rattle.sh_parser.specs.Words.{is_quoted, is_quoted_braces, is_arithmetic, stops, may_end, stops_at, role_of, backslash, escapes, shape_of, digit, grouped};
ghost use Rattle.sh_parser.specs.Modes.{is_double};
ghost use Rattle.sh_parser.specs.Grammar.{Phrase};
ghost use Rattle.sh_parser.specs.Reading.{Reading, Escapes, Closes};

use crate::SyntaxKind;
use crate::braces::{
    Content, Subject, change, content_of, named_at, param, past_content, past_subject, subject_of,
    word_mode,
};
use crate::reader::{Failed, Reader, append, push};
use sh_text::{ends_word, first, follow, is_end, joined, tail};
use sh_tree::{Change, Param, Part, Word};
use sqlite_items::Items;
use std::alloc::Global;

/// In what a part of a word stands.
#[derive(Clone, Copy)]
pub enum Mode {
    /// In nothing.
    Bare,
    /// In double quotes.
    Double,
    /// In braces, as if no double quotes stood around them.
    Braces,
    /// In braces that stand in double quotes.
    QuotedBraces,
    /// In `$((` and `))`, or in parentheses there.
    Arithmetic,
}

/// What the byte at the front begins.
#[derive(Clone, Copy)]
enum Role {
    /// The text ends here, within the form.
    Open,
    Nul,
    LeftOut,
    /// The byte itself.
    Plain,
    /// A `\` that quotes the byte behind it.
    Escape,
    Single,
    Double,
    Dollar,
    Paren,
}

fn is_quoted(mode: Mode) -> bool
    ensures { result ≡ is_quoted mode }
{
    match mode {
        Mode::Bare => false,
        Mode::Double => true,
        Mode::Braces => false,
        Mode::QuotedBraces => true,
        Mode::Arithmetic => true,
    }
}

fn is_double(mode: Mode) -> bool
    ensures { result ≡ is_double mode }
{
    match mode {
        Mode::Bare => false,
        Mode::Double => true,
        Mode::Braces => false,
        Mode::QuotedBraces => false,
        Mode::Arithmetic => false,
    }
}

fn is_quoted_braces(mode: Mode) -> bool
    ensures { result ≡ is_quoted_braces mode }
{
    match mode {
        Mode::Bare => false,
        Mode::Double => false,
        Mode::Braces => false,
        Mode::QuotedBraces => true,
        Mode::Arithmetic => false,
    }
}

fn is_arithmetic(mode: Mode) -> bool
    ensures { result ≡ is_arithmetic mode }
{
    match mode {
        Mode::Bare => false,
        Mode::Double => false,
        Mode::Braces => false,
        Mode::QuotedBraces => false,
        Mode::Arithmetic => true,
    }
}

fn stops(mode: Mode, c: u8) -> bool
    ensures { result ≡ stops mode c }
{
    match mode {
        Mode::Bare => ends_word(c),
        Mode::Double => c == 34,
        Mode::Braces => c == 125,
        Mode::QuotedBraces => c == 125,
        Mode::Arithmetic => c == 41,
    }
}

fn may_end(mode: Mode) -> bool
    ensures { result ≡ may_end mode }
{
    match mode {
        Mode::Bare => true,
        Mode::Double => false,
        Mode::Braces => false,
        Mode::QuotedBraces => false,
        Mode::Arithmetic => false,
    }
}

// whether the parts end here, at their end or at that of the text
#[tactic(auto, unfolding(crate::specs::Words::stops_at))]
fn stops_at(mode: Mode, text: &[u8]) -> bool
    ensures { result ≡ stops_at mode text.now }
{
    match first(text) {
        None => may_end(mode),
        Some((c, _)) => stops(mode, c),
    }
}

#[tactic(auto, unfolding(crate::specs::Words::role_of))]
fn role_of(mode: Mode, c: u8, rest: &[u8]) -> Role
    ensures same { result ≡ role_of mode c rest.now }
    ensures leaves { result ≡ Role.Double → is_double mode ≡ false }
{
    if c == 0 {
        Role::Nul
    } else if c == 96 {
        Role::LeftOut
    } else if c == 36 {
        Role::Dollar
    } else if c == 92 {
        backslash(mode, rest)
    } else if c == 34 && !is_arithmetic(mode) && !is_double(mode) {
        Role::Double
    } else if c == 39 && !is_quoted(mode) {
        Role::Single
    } else if c == 40 && is_arithmetic(mode) {
        Role::Paren
    } else {
        Role::Plain
    }
}

// a `\` before this text
fn backslash(mode: Mode, text: &[u8]) -> Role
    ensures same { result ≡ backslash mode text.now }
    ensures leaves { result ≡ Role.Double → is_double mode ≡ false }
{
    match first(text) {
        None => Role::Open,
        Some((c, _)) => {
            if escapes(mode, c) {
                Role::Escape
            } else {
                Role::Plain
            }
        }
    }
}

fn escapes(mode: Mode, c: u8) -> bool
    ensures { result ≡ escapes mode c }
{
    !is_quoted(mode)
        || c == 36
        || c == 96
        || c == 34
        || c == 92
        || (c == 125 && is_quoted_braces(mode))
}

/// What a `$` before this text begins.
#[derive(Clone, Copy)]
enum Shape {
    Paren,
    Brace,
    LeftOut,
    Name,
    Digit,
    Sign,
    Plain,
}

#[tactic(auto, unfolding(crate::specs::Words::shape_of))]
fn shape_of(text: &[u8]) -> Shape
    ensures { result ≡ shape_of text.now }
{
    match first(text) {
        None => Shape::Plain,
        Some((c, _)) => {
            if c == 40 {
                Shape::Paren
            } else if c == 123 {
                Shape::Brace
            } else if c == 36 || c == 33 || c == 45 {
                Shape::LeftOut
            } else {
                match subject_of(text) {
                    Subject::Name => Shape::Name,
                    Subject::Place => Shape::Digit,
                    Subject::Count => Shape::Sign,
                    Subject::Fields => Shape::Sign,
                    Subject::Joined => Shape::Sign,
                    Subject::Status => Shape::Sign,
                    Subject::Absent => Shape::Plain,
                }
            }
        }
    }
}

fn digit(text: &[u8]) -> u32
    ensures { result ≡ digit text.now }
{
    match first(text) {
        None => 0,
        Some((c, _)) => c.saturating_sub(48) as u32,
    }
}

fn one(alloc: Global, part: Part) -> Result<Word, Failed>
    ensures { MatchResult result (λ parts. parts ≡ part ∷ []) (λ e. e ≡ Failed.Memory) }
{
    let mut parts = Items::new(alloc);
    push(&mut parts, part)?;
    Ok(parts)
}

fn byte(alloc: Global, byte: u8, quoted: bool) -> Result<Word, Failed>
    ensures { MatchResult result (λ parts. parts ≡ Part.Byte byte quoted ∷ []) (λ e. e ≡ Failed.Memory) }
{
    one(alloc, Part::Byte { byte, quoted })
}

// quotes with nothing in them are a part of their own, but not where they only group
#[tactic(auto, unfolding(crate::specs::Words::grouped))]
fn grouped(alloc: Global, mode: Mode, parts: Word) -> Result<Word, Failed>
    ensures { MatchResult result (λ ps. ps ≡ grouped mode parts) (λ e. e ≡ Failed.Memory) }
{
    if parts.is_empty() && !is_quoted(mode) {
        return one(alloc, Part::EmptyQuotes);
    }
    Ok(parts)
}

// what parentheses hold, with them around it
fn parenthesised(alloc: Global, inner: Word) -> Result<Word, Failed>
    ensures { MatchResult result (λ parts. parts ≡ (Part.Byte 40 true ∷ inner) ++ Part.Byte 41 true ∷ []) (λ e. e ≡ Failed.Memory) }
{
    let mut parts = byte(alloc, 40, true)?;
    append(&mut parts, inner)?;
    push(
        &mut parts,
        Part::Byte {
            byte: 41,
            quoted: true,
        },
    )?;
    Ok(parts)
}

impl Reader<'_> {
    // what stands in single quotes, after the opening one
    fn single(&mut self, alloc: Global) -> Result<Word, Failed>
        ensures reads { Reading (Phrase.single) self.old.rest.now self.new.rest.now result }
        ensures shorter { length self.new.rest.now ≤ length self.old.rest.now }
    {
        let mut parts = Items::new(alloc);
        'bytes: loop {
            let (c, rest) = match first(self.rest) {
                None => return Err(Failed::Fault(SyntaxKind::Unclosed)),
                Some(pair) => pair,
            };
            if c == 0 {
                return Err(Failed::Fault(SyntaxKind::Nul));
            }
            if c == 39 {
                self.rest = rest;
                return Ok(parts);
            }
            let part = Part::Byte {
                byte: c,
                quoted: true,
            };
            push(&mut parts, part)?;
            self.rest = rest;
        }
    }

    // the byte behind a `\`
    fn escaped(&mut self, alloc: Global) -> Result<Word, Failed>
        ensures escapes { Escapes self.old.rest.now self.new.rest.now result }
        ensures shorter { length self.new.rest.now ≤ length self.old.rest.now }
    {
        match first(self.rest) {
            None => Err(Failed::Fault(SyntaxKind::Unclosed)),
            Some((c, rest)) => {
                if c == 0 {
                    return Err(Failed::Fault(SyntaxKind::Nul));
                }
                self.rest = rest;
                byte(alloc, c, true)
            }
        }
    }

    /// The parts up to what ends them in this mode.
    #[cycle(read)]
    pub fn parts(&mut self, alloc: Global, mode: Mode, depth: u32) -> Result<Word, Failed>
        ensures reads { Reading (Phrase.parts mode depth) self.old.rest.now self.new.rest.now result }
        ensures shorter { length self.new.rest.now ≤ length self.old.rest.now }
    {
        let mut parts = Items::new(alloc);
        'parts: loop {
            self.rest = joined(self.rest);
            if stops_at(mode, self.rest) {
                return Ok(parts);
            }
            let more = self.piece(alloc, mode, depth)?;
            append(&mut parts, more)?;
        }
    }

    /// A part that stands at the front of such parts.
    #[cycle(read)]
    pub fn piece(&mut self, alloc: Global, mode: Mode, depth: u32) -> Result<Word, Failed>
        ensures reads { Reading (Phrase.piece mode depth) self.old.rest.now self.new.rest.now result }
        ensures shorter { length self.new.rest.now ≤ length self.old.rest.now }
        ensures strict { OnOk result (length self.new.rest.now < length self.old.rest.now) }
    {
        let (c, rest) = match first(self.rest) {
            None => return Err(Failed::Fault(SyntaxKind::Unclosed)),
            Some(pair) => pair,
        };
        match role_of(mode, c, rest) {
            Role::Open => {
                self.rest = rest;
                Err(Failed::Fault(SyntaxKind::Unclosed))
            }
            Role::Nul => Err(Failed::Fault(SyntaxKind::Nul)),
            Role::LeftOut => Err(Failed::Fault(SyntaxKind::LeftOut)),
            Role::Plain => {
                self.rest = rest;
                byte(alloc, c, is_quoted(mode))
            }
            Role::Escape => {
                self.rest = rest;
                self.escaped(alloc)
            }
            Role::Single => {
                self.rest = rest;
                let parts = self.single(alloc)?;
                grouped(alloc, mode, parts)
            }
            Role::Double => {
                self.rest = rest;
                let parts = self.parts(alloc, Mode::Double, depth)?;
                self.rest = tail(self.rest);
                grouped(alloc, mode, parts)
            }
            Role::Dollar => {
                let part = self.dollar(alloc, is_quoted(mode), depth)?;
                one(alloc, part)
            }
            Role::Paren => {
                if depth == 0 {
                    return Err(Failed::Fault(SyntaxKind::Deep));
                }
                self.rest = rest;
                let inner = self.parts(alloc, Mode::Arithmetic, depth - 1)?;
                self.rest = tail(self.rest);
                parenthesised(alloc, inner)
            }
        }
    }

    // at a `$`
    #[cycle(read)]
    fn dollar(&mut self, alloc: Global, quoted: bool, depth: u32) -> Result<Part, Failed>
        requires { 0 < length self.old.rest.now }
        ensures reads { Reading (Phrase.dollar quoted depth) self.old.rest.now self.new.rest.now result }
        ensures shorter { length self.new.rest.now ≤ length self.old.rest.now }
        ensures strict { OnOk result (length self.new.rest.now < length self.old.rest.now) }
    {
        let inner = joined(tail(self.rest));
        match shape_of(inner) {
            Shape::Paren => self.substitution(alloc, quoted, depth),
            Shape::Brace => self.braces(alloc, quoted, depth),
            Shape::LeftOut => Err(Failed::Fault(SyntaxKind::LeftOut)),
            Shape::Name => {
                let param = param(alloc, inner)?;
                self.rest = past_subject(inner);
                Ok(plain(param, quoted))
            }
            Shape::Digit => {
                self.rest = tail(inner);
                Ok(plain(Param::Place(digit(inner)), quoted))
            }
            Shape::Sign => {
                let param = param(alloc, inner)?;
                self.rest = tail(inner);
                Ok(plain(param, quoted))
            }
            Shape::Plain => {
                self.rest = inner;
                Ok(Part::Byte { byte: 36, quoted })
            }
        }
    }

    // `${`, at its `$`
    #[cycle(read)]
    fn braces(&mut self, alloc: Global, quoted: bool, depth: u32) -> Result<Part, Failed>
        requires { 0 < length self.old.rest.now }
        ensures reads { Reading (Phrase.braces quoted depth) self.old.rest.now self.new.rest.now result }
        ensures shorter { length self.new.rest.now ≤ length self.old.rest.now }
        ensures strict { OnOk result (length self.new.rest.now < length self.old.rest.now) }
    {
        if depth == 0 {
            return Err(Failed::Fault(SyntaxKind::Deep));
        }
        let text = joined(tail(joined(tail(self.rest))));
        match content_of(text) {
            Content::Open => {
                self.rest = b"";
                Err(Failed::Fault(SyntaxKind::Unclosed))
            }
            Content::Malformed => Err(Failed::Fault(SyntaxKind::Unexpected)),
            Content::Plain => {
                let param = param(alloc, text)?;
                self.rest = past_content(text, false);
                Ok(changed(param, Change::Plain, quoted))
            }
            Content::Length => {
                let param = param(alloc, named_at(text))?;
                self.rest = past_content(text, false);
                Ok(changed(param, Change::Length, quoted))
            }
            Content::Changed { operator, flag } => {
                let param = param(alloc, text)?;
                self.rest = past_content(text, flag);
                let word = self.parts(alloc, word_mode(operator, quoted), depth - 1)?;
                self.rest = tail(self.rest);
                Ok(changed(param, change(operator, flag, word), quoted))
            }
        }
    }

    // `$(` or `$((`, at its `$`
    #[cycle(read)]
    fn substitution(&mut self, alloc: Global, quoted: bool, depth: u32) -> Result<Part, Failed>
        requires { 0 < length self.old.rest.now }
        ensures reads { Reading (Phrase.substitution quoted depth) self.old.rest.now self.new.rest.now result }
        ensures shorter { length self.new.rest.now ≤ length self.old.rest.now }
        ensures strict { OnOk result (length self.new.rest.now < length self.old.rest.now) }
    {
        if depth == 0 {
            return Err(Failed::Fault(SyntaxKind::Deep));
        }
        let inner = tail(joined(tail(self.rest)));
        match follow(b"(", inner) {
            Some(rest) => {
                self.rest = rest;
                let text = self.parts(alloc, Mode::Arithmetic, depth - 1)?;
                self.close_arithmetic()?;
                Ok(Part::Arith { text, quoted })
            }
            None => {
                self.rest = inner;
                let list = self.list(alloc, depth - 1)?;
                self.need(b")", depth - 1)?;
                Ok(Part::Output { list, quoted })
            }
        }
    }

    // goes past `))`
    #[tactic(auto, unfolding(crate::specs::Grammar::closed))]
    fn close_arithmetic(&mut self) -> Result<(), Failed>
        ensures closes { Closes self.old.rest.now self.new.rest.now result }
        ensures shorter { length self.new.rest.now ≤ length self.old.rest.now }
    {
        let second = joined(tail(self.rest));
        match follow(b")", second) {
            Some(rest) => {
                self.rest = rest;
                Ok(())
            }
            None => {
                if is_end(second) {
                    self.rest = tail(second);
                    return Err(Failed::Fault(SyntaxKind::Unclosed));
                }
                Err(Failed::Fault(SyntaxKind::Unexpected))
            }
        }
    }
}

fn plain(param: Param, quoted: bool) -> Part
    ensures { result ≡ Part.Param param Change.Plain quoted }
{
    changed(param, Change::Plain, quoted)
}

fn changed(param: Param, change: Change, quoted: bool) -> Part
    ensures { result ≡ Part.Param param change quoted }
{
    Part::Param {
        param,
        change,
        quoted,
    }
}
