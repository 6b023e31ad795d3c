//! What stands in the braces of a parameter (section 2.6.2).

ghost use Rattle.std.specs.Prelude.{◌≡◌, ◌≤◌, ◌<◌, length, MatchResult};
ghost use Rattle.sh_parser.specs.Words.{subject_of, past_subject, is_absent, begins_byte, is_length, is_length_open, content_of, change_at, coloned, choice, named_at, past_content, change, word_mode, in_quotes, param};

use crate::reader::Failed;
use crate::words::Mode;
use sh_text::{Class, first, is_digit, is_end, is_initial, joined, number, past, run, tail};
use sh_tree::{Change, Param, Word};
use std::alloc::Global;

/// Which parameter's name stands at the front.
#[derive(Clone, Copy)]
pub enum Subject {
    Name,
    Place,
    Count,
    Fields,
    Joined,
    Status,
    Absent,
}

/// The operator of a change.
#[derive(Clone, Copy)]
pub enum Operator {
    Else,
    Assign,
    Fail,
    Also,
    CutEnd,
    CutFront,
}

/// What stands in braces.
#[derive(Clone, Copy)]
pub enum Content {
    Plain,
    Length,
    /// A change, whose word follows. `flag` is `colon`, or `longest`.
    Changed { operator: Operator, flag: bool },
    /// What fits no form.
    Malformed,
    /// The text ends here.
    Open,
}

/// Which parameter's name begins here.
#[tactic(auto, unfolding(crate::specs::Words::subject_of))]
pub fn subject_of(text: &[u8]) -> Subject
    ensures { result ≡ subject_of text.now }
{
    match first(text) {
        None => Subject::Absent,
        Some((c, _)) => {
            if is_initial(c) {
                Subject::Name
            } else if is_digit(c) {
                Subject::Place
            } else if c == 35 {
                Subject::Count
            } else if c == 64 {
                Subject::Fields
            } else if c == 42 {
                Subject::Joined
            } else if c == 63 {
                Subject::Status
            } else {
                Subject::Absent
            }
        }
    }
}

/// What follows it, where all digits belong to a number.
#[tactic(auto, unfolding(crate::specs::Words::past_subject))]
pub fn past_subject(text: &[u8]) -> &[u8]
    ensures same { result.now ≡ past_subject text.now }
    ensures shorter { length result.now ≤ length text.now }
{
    match subject_of(text) {
        Subject::Name => past(Class::Name, text),
        Subject::Place => past(Class::Digits, text),
        Subject::Count => joined(tail(text)),
        Subject::Fields => joined(tail(text)),
        Subject::Joined => joined(tail(text)),
        Subject::Status => joined(tail(text)),
        Subject::Absent => text,
    }
}

/// The parameter whose name begins here, or want of memory.
#[tactic(auto, unfolding(crate::specs::Words::param))]
pub fn param(alloc: Global, text: &[u8]) -> Result<Param, Failed>
    ensures { MatchResult result (λ p. p ≡ param text.now) (λ e. e ≡ Failed.Memory) }
{
    match subject_of(text) {
        Subject::Name => match run(alloc, Class::Name, text) {
            Ok(name) => Ok(Param::Name(name)),
            Err(_) => Err(Failed::Memory),
        },
        Subject::Place => Ok(Param::Place(number(text))),
        Subject::Count => Ok(Param::Count),
        Subject::Fields => Ok(Param::Fields),
        Subject::Joined => Ok(Param::Joined),
        Subject::Status => Ok(Param::Status),
        Subject::Absent => Ok(Param::Count),
    }
}

#[tactic(auto, unfolding(crate::specs::Words::is_absent))]
fn is_absent(text: &[u8]) -> bool
    ensures { result ≡ is_absent text.now }
{
    match subject_of(text) {
        Subject::Name => false,
        Subject::Place => false,
        Subject::Count => false,
        Subject::Fields => false,
        Subject::Joined => false,
        Subject::Status => false,
        Subject::Absent => true,
    }
}

#[tactic(auto, unfolding(crate::specs::Words::begins_byte))]
fn begins(byte: u8, text: &[u8]) -> bool
    ensures { result ≡ begins_byte byte text.now }
{
    match first(text) {
        None => false,
        Some((c, _)) => c == byte,
    }
}

/// Whether a `#` stands here that asks for the length of what follows it.
#[tactic(auto, unfolding(crate::specs::Words::is_length))]
pub fn is_length(text: &[u8]) -> bool
    ensures { result ≡ is_length text.now }
{
    if !begins(35, text) {
        return false;
    }
    let inner = joined(tail(text));
    !is_absent(inner) && begins(125, past_subject(inner))
}

// the text ends behind a `#` and a parameter's name
#[tactic(auto, unfolding(crate::specs::Words::is_length_open))]
fn is_length_open(text: &[u8]) -> bool
    ensures { result ≡ is_length_open text.now }
{
    if !begins(35, text) {
        return false;
    }
    let inner = joined(tail(text));
    !is_absent(inner) && is_end(past_subject(inner))
}

/// What stands in braces whose content begins here.
#[tactic(auto, unfolding(crate::specs::Words::content_of))]
pub fn content_of(text: &[u8]) -> Content
    ensures { result ≡ content_of text.now }
{
    if is_absent(text) {
        if is_end(text) {
            Content::Open
        } else {
            Content::Malformed
        }
    } else if is_length_open(text) {
        Content::Open
    } else if is_length(text) {
        Content::Length
    } else {
        change_at(past_subject(text))
    }
}

// where the parameter's name has ended
#[tactic(auto, unfolding(crate::specs::Words::change_at))]
fn change_at(text: &[u8]) -> Content
    ensures { result ≡ change_at text.now }
{
    match first(text) {
        None => Content::Open,
        Some((c, rest)) => {
            if is_end(text) {
                Content::Open
            } else if c == 125 {
                Content::Plain
            } else if c == 58 {
                coloned(joined(rest))
            } else if c == 37 {
                cut(Operator::CutEnd, begins(37, joined(rest)))
            } else if c == 35 {
                cut(Operator::CutFront, begins(35, joined(rest)))
            } else {
                choice(c, false)
            }
        }
    }
}

fn cut(operator: Operator, flag: bool) -> Content
    ensures { result ≡ Content.Changed operator flag }
{
    Content::Changed { operator, flag }
}

// after a `:`
#[tactic(auto, unfolding(crate::specs::Words::coloned))]
fn coloned(text: &[u8]) -> Content
    ensures { result ≡ coloned text.now }
{
    match first(text) {
        None => Content::Open,
        Some((c, _)) => {
            if is_end(text) {
                Content::Open
            } else {
                choice(c, true)
            }
        }
    }
}

fn choice(c: u8, flag: bool) -> Content
    ensures { result ≡ choice c flag }
{
    if c == 45 {
        cut(Operator::Else, flag)
    } else if c == 61 {
        cut(Operator::Assign, flag)
    } else if c == 63 {
        cut(Operator::Fail, flag)
    } else if c == 43 {
        cut(Operator::Also, flag)
    } else {
        Content::Malformed
    }
}

/// Where the name of the parameter begins of which the content speaks.
#[tactic(auto, unfolding(crate::specs::Words::named_at))]
pub fn named_at(text: &[u8]) -> &[u8]
    ensures same { result.now ≡ named_at text.now }
    ensures shorter { length result.now ≤ length text.now }
{
    if is_length(text) {
        joined(tail(text))
    } else {
        text
    }
}

/// What follows the content, but for the word of a change.
#[tactic(auto, unfolding(crate::specs::Words::past_content))]
pub fn past_content(text: &[u8], flag: bool) -> &[u8]
    ensures same { result.now ≡ past_content text.now flag }
    ensures shorter { length result.now ≤ length text.now }
{
    let after = past_subject(named_at(text));
    if flag {
        tail(joined(tail(after)))
    } else {
        tail(after)
    }
}

/// A change by this operator.
pub fn change(operator: Operator, flag: bool, word: Word) -> Change
    ensures { result ≡ change operator flag word }
{
    match operator {
        Operator::Else => Change::Else { colon: flag, word },
        Operator::Assign => Change::Assign { colon: flag, word },
        Operator::Fail => Change::Fail { colon: flag, word },
        Operator::Also => Change::Also { colon: flag, word },
        Operator::CutEnd => Change::CutEnd {
            longest: flag,
            word,
        },
        Operator::CutFront => Change::CutFront {
            longest: flag,
            word,
        },
    }
}

/// How the word of a change is read.
pub fn word_mode(operator: Operator, quoted: bool) -> Mode
    ensures { result ≡ word_mode operator quoted }
{
    match operator {
        Operator::Else => in_quotes(quoted),
        Operator::Assign => in_quotes(quoted),
        Operator::Fail => in_quotes(quoted),
        Operator::Also => in_quotes(quoted),
        Operator::CutEnd => Mode::Braces,
        Operator::CutFront => Mode::Braces,
    }
}

fn in_quotes(quoted: bool) -> Mode
    ensures { result ≡ in_quotes quoted }
{
    if quoted {
        Mode::QuotedBraces
    } else {
        Mode::Braces
    }
}
