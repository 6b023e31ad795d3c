//! Patterns, taken apart into their items.

ghost use Rattle.std.specs.Prelude.{◌≡◌, ◌∷◌, [], ◌<◌, ◌≤◌, ◌+◌, ◌||◌, ℕ, MatchOption, IfOk, IfSome, length, map, position};
ghost use Rattle.sh_expand.specs.Pattern.{is_unquoted, within, has, range_end, closing, set_of, bracket, item_at, items_of, takes};
ghost use Rattle.sh_expand.specs.Reading.{ReadsMember, Reads, item_of};

use bd_dev::Memory;
use std::alloc::Global;

/// What a pattern has at a place.
#[derive(Clone, Copy)]
pub(crate) enum Item<'a> {
    /// Any bytes.
    Star,
    /// Any byte.
    Any,
    Byte(u8),
    /// A byte of these, or none of them.
    Set {
        negated: bool,
        content: &'a [(u8, bool)],
    },
}

// the bytes from one to another in a set, and what follows them
#[derive(Clone, Copy)]
struct Member<'a> {
    low: u8,
    high: u8,
    rest: &'a [(u8, bool)],
}

pub(crate) fn first(pieces: &[(u8, bool)]) -> Option<((u8, bool), &[(u8, bool)])>
    ensures { MatchOption result (pieces.now ≡ []) (λ p. pieces.now ≡ p.0 ∷ p.1.now) }
{
    match pieces {
        [] => None,
        [piece, rest @ ..] => Some((*piece, rest)),
    }
}

fn is_unquoted(piece: (u8, bool), byte: u8) -> bool
    ensures { result ≡ is_unquoted byte piece }
{
    piece.0 == byte && !piece.1
}

// what follows a `-` in a set
fn range_end(rest: &[(u8, bool)]) -> Option<(u8, &[(u8, bool)])>
    ensures { ReadsMember result (range_end rest.now) }
{
    let (dash, rest) = first(rest)?;
    let (high, rest) = first(rest)?;
    if is_unquoted(dash, b'-') {
        Some((high.0, rest))
    } else {
        None
    }
}

// the first member of a set
fn first_member(content: &[(u8, bool)]) -> Option<Member<'_>>
    ensures found { MatchOption result (content.now ≡ []) (λ m. (c : ℕ) → has content.now c ≡ (within m.low m.high c || has m.rest.now c)) }
    ensures shorter { IfSome result (λ m. length m.rest.now < length content.now) }
{
    let (low, rest) = first(content)?;
    match range_end(rest) {
        None => Some(Member {
            low: low.0,
            high: low.0,
            rest,
        }),
        Some((high, rest)) => Some(Member {
            low: low.0,
            high,
            rest,
        }),
    }
}

// whether a set has the byte
fn has(content: &[(u8, bool)], byte: u8) -> bool
    ensures { result ≡ has content.now byte }
{
    let mut rest = content;
    'members: loop {
        match first_member(rest) {
            None => return false,
            Some(member) => {
                if member.low <= byte && byte <= member.high {
                    return true;
                }
                rest = member.rest;
            }
        }
    }
}

impl Item<'_> {
    /// Whether the byte may stand there.
    pub(crate) fn takes(self, byte: u8) -> bool
        ensures { result ≡ takes (item_of self.entry) byte }
    {
        match self {
            Item::Star => false,
            Item::Any => true,
            Item::Byte(own) => own == byte,
            Item::Set { negated, content } => has(content, byte) != negated,
        }
    }
}

// how many pieces stand before the first `]`
fn first_end(content: &[(u8, bool)]) -> Option<usize>
    ensures value { result ≡ position (is_unquoted 93) content.now }
    ensures within { IfSome result (λ n. n < length content.now) }
{
    content.iter().position(|piece| is_unquoted(*piece, b']'))
}

// how many pieces stand before the `]` that ends a set
fn closing(content: &[(u8, bool)]) -> Option<usize>
    ensures closing { result ≡ closing content.now }
    ensures within { IfSome result (λ n. n < length content.now) }
{
    let (_, rest) = first(content)?;
    let at = first_end(rest)?;
    Some(at + 1)
}

// the set between a `[` and its `]`, or a `[` that is itself, and how many pieces that is after the `[`
fn set(negated: bool, before: usize, content: &[(u8, bool)]) -> (Item<'_>, usize)
    requires { before ≤ 1 }
    ensures set { Reads result (set_of negated before content.now (closing content.now)) }
    ensures within { result.1 ≤ before + length content.now }
{
    match closing(content) {
        None => (Item::Byte(b'['), 0),
        Some(end) => (
            Item::Set {
                negated,
                content: &content[..end],
            },
            before + end + 1,
        ),
    }
}

// the item that a `[` begins, and how many pieces that is after the `[`
fn bracket(rest: &[(u8, bool)]) -> (Item<'_>, usize)
    ensures bracket { Reads result (bracket rest.now) }
    ensures within { result.1 ≤ length rest.now }
{
    match first(rest) {
        Some((piece, content)) if is_unquoted(piece, b'!') => set(true, 1, content),
        Some(_) => set(false, 0, rest),
        None => (Item::Byte(b'['), 0),
    }
}

// the item that begins with this piece, and how many pieces after it are its
fn item_at(piece: (u8, bool), rest: &[(u8, bool)]) -> (Item<'_>, usize)
    ensures item { Reads result (item_at piece rest.now) }
    ensures within { result.1 ≤ length rest.now }
{
    if is_unquoted(piece, b'*') {
        (Item::Star, 0)
    } else if is_unquoted(piece, b'?') {
        (Item::Any, 0)
    } else if is_unquoted(piece, b'[') {
        bracket(rest)
    } else {
        (Item::Byte(piece.0), 0)
    }
}

/// The first item of a pattern, and what follows it.
pub(crate) fn first_item(pattern: &[(u8, bool)]) -> Option<(Item<'_>, &[(u8, bool)])>
    ensures found { MatchOption result (items_of pattern.now ≡ []) (λ p. items_of pattern.now ≡ item_of p.0 ∷ items_of p.1.now) }
    ensures shorter { IfSome result (λ p. length p.1.now < length pattern.now) }
{
    let (piece, rest) = first(pattern)?;
    let (item, taken) = item_at(piece, rest);
    Some((item, rest.split_at(taken).1))
}

/// The items of a pattern, from the front, or `Memory`.
pub(crate) fn items(alloc: Global, pattern: &[(u8, bool)]) -> Result<Vec<Item<'_>>, Memory>
    ensures { IfOk result (λ all. map item_of all.items ≡ items_of pattern.now) }
{
    let mut all = Vec::new(alloc);
    let mut rest = pattern;
    'items: loop {
        let Some((item, after)) = first_item(rest) else {
            return Ok(all);
        };
        all.push(item)?;
        rest = after;
    }
}
