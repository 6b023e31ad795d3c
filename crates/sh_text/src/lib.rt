//! What stands at the front of a text of the shell: bytes, blanks, operators, reserved words and names
//! (POSIX.1-2017, "Shell Command Language", sections 2.2 to 2.4 and 2.7).
#![tactic(auto)]

ghost use Rattle.std.specs.Prelude.{◌≡◌, ◌∷◌, [], ◌<◌, ◌≤◌, drop, length, IfOk, MatchOption, IfSome, is_some, false, ◌||◌, ◌&&◌, ◌==◌, ◌*◌, ◌+◌, ◌-◌, min};
ghost use Rattle.sh_text.specs.Front.{begins_join, joined, gap, comment, is_blank, ends_word, is_digit, is_initial, is_in, ends_token, is_end, follow, reserved, past, run, number, begins_name, is_redirection, is_word, is_reserved, is_closing, ends_list, is_opening, is_misplaced};

use bd_dev::{Bytes, Memory};
use std::alloc::Global;

/// Which bytes a run is of.
#[derive(Clone, Copy)]
pub enum Class {
    /// Decimal digits.
    Digits,
    /// Letters, digits and `_`.
    Name,
}

/// The first byte, and what follows it.
pub fn first(text: &[u8]) -> Option<(u8, &[u8])>
    ensures { MatchOption result (text.now ≡ []) (λ p. text.now ≡ p.0 ∷ p.1.now) }
{
    match text {
        [] => None,
        [c, rest @ ..] => Some((*c, rest)),
    }
}

/// What follows the first byte.
pub fn tail(text: &[u8]) -> &[u8]
    ensures same { result.now ≡ drop 1 text.now }
    ensures shorter { length result.now ≡ length text.now - 1 }
{
    match text {
        [] => text,
        [_, rest @ ..] => rest,
    }
}

// what follows a `\` and a line end at the front
#[tactic(auto, unfolding(crate::specs::Front::begins_join))]
fn past_join(text: &[u8]) -> Option<&[u8]>
    ensures { MatchOption result (begins_join text.now ≡ false) (λ rest. text.now ≡ 92 ∷ 10 ∷ rest.now) }
{
    match first(text) {
        None => None,
        Some((c, more)) => match first(more) {
            None => None,
            Some((d, rest)) => { if c == 92 && d == 10 { Some(rest) } else { None } }
        },
    }
}

/// Without the line ends at its front that a `\` takes away (section 2.2.1).
#[tactic(auto, using(crate::proofs::Front::joined_stays), unfolding(crate::specs::Front::joined))]
pub fn joined(text: &[u8]) -> &[u8]
    ensures same { result.now ≡ joined text.now }
    ensures shorter { length result.now ≤ length text.now }
{
    let mut rest = text;
    'joins: loop {
        match past_join(rest) {
            None => return rest,
            Some(more) => rest = more,
        }
    }
}

/// A space or a tab.
pub fn is_blank(c: u8) -> bool
    ensures { result ≡ is_blank c }
{
    c == 32 || c == 9
}

/// A byte that ends a word where it isn't quoted: a blank, a line end or the first of an operator.
pub fn ends_word(c: u8) -> bool
    ensures { result ≡ ends_word c }
{
    is_blank(c)
        || c == 10
        || c == 38
        || c == 40
        || c == 41
        || c == 59
        || c == 60
        || c == 62
        || c == 124
}

/// Without the blanks and the comment at its front, and, over line ends, without those and what they part.
/// A comment ends before a line end or a 00 byte (section 2.3, rules 7 and 9).
#[tactic(auto, using(crate::proofs::Front::gap_stays), unfolding(crate::specs::Front::gap))]
pub fn gap(text: &[u8], over: bool) -> &[u8]
    ensures same { result.now ≡ gap over text.now }
    ensures shorter { length result.now ≤ length text.now }
{
    let mut rest = text;
    'bytes: loop {
        let (c, more) = match first(rest) {
            None => return rest,
            Some(pair) => pair,
        };
        if is_skipped(c, over) {
            rest = more;
        } else if c == 35 {
            rest = past_comment(more, over);
        } else {
            match past_join(rest) {
                None => return rest,
                Some(after) => rest = after,
            }
        }
    }
}

fn is_skipped(c: u8, over: bool) -> bool
    ensures { result ≡ is_blank c || (over && (c == 10)) }
{
    is_blank(c) || (over && c == 10)
}

// from where the comment ends
#[tactic(auto, unfolding(crate::specs::Front::gap))]
fn past_comment(text: &[u8], over: bool) -> &[u8]
    ensures same { gap over result.now ≡ comment over text.now }
    ensures shorter { length result.now ≤ length text.now }
{
    let mut rest = text;
    'bytes: loop {
        match first(rest) {
            None => return rest,
            Some((c, more)) => {
                if c == 10 || c == 0 {
                    return rest;
                }
                rest = more;
            }
        }
    }
}

/// Whether a token ends here.
#[tactic(auto, unfolding(crate::specs::Front::ends_token))]
pub fn ends_token(text: &[u8]) -> bool
    ensures { result ≡ ends_token text.now }
{
    match first(joined(text)) {
        None => true,
        Some((c, _)) => ends_word(c),
    }
}

/// Nothing is left, or only a `\`, which quotes what would come.
#[tactic(auto, unfolding(crate::specs::Front::is_end))]
pub fn is_end(text: &[u8]) -> bool
    ensures { result ≡ is_end text.now }
{
    match first(text) {
        None => true,
        Some((c, rest)) => match first(rest) {
            None => c == 92,
            Some(_pair) => false,
        },
    }
}

/// What follows these bytes, if the text begins with them.
#[tactic(auto, unfolding(crate::specs::Front::follow))]
pub fn follow<'a>(word: &[u8], text: &'a [u8]) -> Option<&'a [u8]>
    ensures same { MatchOption result (follow word.now text.now ≡ None) (λ r. follow word.now text.now ≡ Some r.now) }
    ensures shorter { IfSome result (λ r. length r.now + length word.now ≤ length text.now) }
{
    match first(word) {
        None => Some(text),
        Some((w, more)) => match first(joined(text)) {
            None => None,
            Some((c, rest)) => { if c == w { follow(more, rest) } else { None } }
        },
    }
}

/// What follows this reserved word, if it stands at the front (section 2.4).
#[tactic(auto, unfolding(crate::specs::Front::reserved))]
pub fn reserved<'a>(word: &[u8], text: &'a [u8]) -> Option<&'a [u8]>
    ensures same { MatchOption result (reserved word.now text.now ≡ None) (λ r. reserved word.now text.now ≡ Some r.now) }
    ensures shorter { IfSome result (λ r. length r.now + length word.now ≤ length text.now) }
{
    match follow(word, text) {
        None => None,
        Some(rest) => { if ends_token(rest) { Some(rest) } else { None } }
    }
}

/// Whether these bytes stand at the front.
pub fn begins_with(word: &[u8], text: &[u8]) -> bool
    ensures { result ≡ is_some (follow word.now text.now) }
{
    match follow(word, text) {
        None => false,
        Some(_rest) => true,
    }
}

/// Whether this reserved word stands at the front.
pub fn is_reserved(word: &[u8], text: &[u8]) -> bool
    ensures { result ≡ is_reserved word.now text.now }
{
    match reserved(word, text) {
        None => false,
        Some(_rest) => true,
    }
}

/// A decimal digit.
pub fn is_digit(c: u8) -> bool
    ensures { result ≡ is_digit c }
{
    48 <= c && c <= 57
}

/// A byte that a name can begin with.
pub fn is_initial(c: u8) -> bool
    ensures { result ≡ is_initial c }
{
    (65 <= c && c <= 90) || (97 <= c && c <= 122) || c == 95
}

fn is_in(class: Class, c: u8) -> bool
    ensures { result ≡ is_in class c }
{
    match class {
        Class::Digits => is_digit(c),
        Class::Name => is_initial(c) || is_digit(c),
    }
}

/// What follows a run of bytes of this class.
#[tactic(auto, using(crate::proofs::Front::past_stays), unfolding(crate::specs::Front::past))]
pub fn past(class: Class, text: &[u8]) -> &[u8]
    ensures same { result.now ≡ past class text.now }
    ensures shorter { length result.now ≤ length text.now }
{
    let mut rest = text;
    'run: loop {
        let (c, more) = match first(rest) {
            None => return rest,
            Some(pair) => pair,
        };
        if is_in(class, c) {
            rest = more;
        } else {
            match past_join(rest) {
                None => return rest,
                Some(after) => rest = after,
            }
        }
    }
}

/// The run of bytes of this class, or want of memory.
#[tactic(auto, using(crate::proofs::Front::run_stays), unfolding(crate::specs::Front::run))]
pub fn run(alloc: Global, class: Class, text: &[u8]) -> Result<Bytes, Memory>
    ensures { IfOk result (λ bytes. bytes ≡ run class text.now) }
{
    let mut bytes = Bytes::from_slice(alloc, b"")?;
    let mut rest = text;
    'run: loop {
        let (c, more) = match first(rest) {
            None => return Ok(bytes),
            Some(pair) => pair,
        };
        if is_in(class, c) {
            bytes.push_slice(&[c])?;
            rest = more;
        } else {
            match past_join(rest) {
                None => return Ok(bytes),
                Some(after) => rest = after,
            }
        }
    }
}

/// The number of the digits at the front, or the greatest u32 where it passes that.
pub fn number(text: &[u8]) -> u32
    ensures { result ≡ number text.now }
{
    let mut number = 0u32;
    let mut rest = text;
    'run: loop {
        let (c, more) = match first(rest) {
            None => return number,
            Some(pair) => pair,
        };
        if is_digit(c) {
            number = appended(number, c);
            rest = more;
        } else {
            match past_join(rest) {
                None => return number,
                Some(after) => rest = after,
            }
        }
    }
}

// the number with one more digit
fn appended(number: u32, digit: u8) -> u32
    ensures { result ≡ min (number * 10 + (digit - 48)) 4294967295 }
{
    let more = number as u64 * 10 + digit.saturating_sub(48) as u64;
    if more < 4294967295 {
        more as u32
    } else {
        4294967295
    }
}

/// Whether a name begins here.
#[tactic(auto, unfolding(crate::specs::Front::begins_name))]
pub fn begins_name(text: &[u8]) -> bool
    ensures { result ≡ begins_name text.now }
{
    match first(joined(text)) {
        None => false,
        Some((c, _)) => is_initial(c),
    }
}

/// Whether a redirection begins here: its operator, or digits that touch it.
#[tactic(auto, unfolding(crate::specs::Front::is_redirection))]
pub fn is_redirection(text: &[u8]) -> bool
    ensures { result ≡ is_redirection text.now }
{
    match first(past(Class::Digits, text)) {
        None => false,
        Some((c, _)) => c == 60 || c == 62,
    }
}

/// Whether a word begins here.
#[tactic(auto, unfolding(crate::specs::Front::is_word))]
pub fn is_word(text: &[u8]) -> bool
    ensures { result ≡ is_word text.now }
{
    match first(joined(text)) {
        None => false,
        Some((c, _)) => !ends_word(c) && !is_redirection(text),
    }
}

/// Whether a reserved word that ends a list stands at the front.
#[tactic(auto, unfolding(crate::specs::Front::is_closing))]
pub fn is_closing(text: &[u8]) -> bool
    ensures { result ≡ is_closing text.now }
{
    is_reserved(b"}", text)
        || is_reserved(b"do", text)
        || is_reserved(b"done", text)
        || is_reserved(b"elif", text)
        || is_reserved(b"else", text)
        || is_reserved(b"esac", text)
        || is_reserved(b"fi", text)
        || is_reserved(b"then", text)
}

/// Whether a list can end here: at the text's end, a `)`, a `;;` or such a word.
#[tactic(auto, unfolding(crate::specs::Front::ends_list))]
pub fn ends_list(text: &[u8]) -> bool
    ensures { result ≡ ends_list text.now }
{
    match first(text) {
        None => true,
        Some((c, _)) => c == 41 || begins_with(b";;", text) || is_closing(text),
    }
}

/// Whether a compound command begins here.
#[tactic(auto, unfolding(crate::specs::Front::is_opening))]
pub fn is_opening(text: &[u8]) -> bool
    ensures { result ≡ is_opening text.now }
{
    begins_with(b"(", text)
        || is_reserved(b"{", text)
        || is_reserved(b"case", text)
        || is_reserved(b"for", text)
        || is_reserved(b"if", text)
        || is_reserved(b"until", text)
        || is_reserved(b"while", text)
}

/// Whether a reserved word stands here that no command begins with.
#[tactic(auto, unfolding(crate::specs::Front::is_misplaced))]
pub fn is_misplaced(text: &[u8]) -> bool
    ensures { result ≡ is_misplaced text.now }
{
    is_closing(text) || is_reserved(b"!", text) || is_reserved(b"in", text)
}
