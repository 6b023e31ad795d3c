//! Texts that match a pattern.

ghost use Rattle.std.specs.Prelude.{◌≡◌, [], ◌<◌, ◌∷◌, IsTrue, IfSome, MatchOption, length, ℕ, option_map};
ghost use Rattle.sh_expand.specs.Pattern.{Matches, items_of};
ghost use Rattle.sh_expand.specs.Reading.{item_of};
ghost use Rattle.sh_expand.specs.Scan.{items_in, text_in, spot, TakesItem, IsStep, IsWholeStep, Later};

use crate::item::{Item, first_item};
use sh_tree::Pattern;

/// The items of a pattern that are left, and the side from which they and the text are taken.
#[derive(Clone, Copy)]
pub(crate) enum Items<'a> {
    /// From the front, each read off the pattern as it comes.
    Front(&'a [(u8, bool)]),
    /// From the back, which wants all of them read before.
    Back(&'a [Item<'a>]),
}

/// A place in a pattern and in a text: what is left of them.
#[derive(Clone, Copy)]
pub(crate) struct Place<'a> {
    pub(crate) items: Items<'a>,
    pub(crate) text: &'a [u8],
}

/// What the pattern has at a place.
#[derive(Clone, Copy)]
pub(crate) enum Step<'a> {
    /// No item is left.
    End,
    /// A star, and the place after it.
    Star(Place<'a>),
    /// An item that takes the byte there, and the place after both.
    Byte(Place<'a>),
    /// An item that doesn't.
    Stuck,
}

impl<'a> Items<'a> {
    // the next item, and those after it
    fn next(self) -> Option<(Item<'a>, Items<'a>)>
        ensures { MatchOption result (items_in self.entry ≡ []) (λ p. TakesItem self.entry p.1 (item_of p.0)) }
    {
        match self {
            Items::Front(pattern) => {
                let (item, rest) = first_item(pattern)?;
                Some((item, Items::Front(rest)))
            }
            Items::Back(items) => {
                let (item, rest) = items.split_last()?;
                Some((*item, Items::Back(rest)))
            }
        }
    }

    // the next byte of the text, and what is left of it
    fn next_byte(self, text: &'a [u8]) -> Option<(u8, &'a [u8])>
        ensures { MatchOption result (text_in self.entry text.now ≡ []) (λ p. text_in self.entry text.now ≡ p.0 ∷ text_in self.entry p.1.now) }
    {
        let (byte, rest) = match self {
            Items::Front(_) => text.split_first()?,
            Items::Back(_) => text.split_last()?,
        };
        Some((*byte, rest))
    }
}

impl<'a> Place<'a> {
    pub(crate) fn step(self) -> Step<'a>
        ensures { IsStep self.entry result }
    {
        let Some((item, items)) = self.items.next() else {
            return Step::End;
        };
        if let Item::Star = item {
            return Step::Star(Place {
                items,
                text: self.text,
            });
        }
        match self.items.next_byte(self.text) {
            Some((byte, text)) if item.takes(byte) => Step::Byte(Place { items, text }),
            _ => Step::Stuck,
        }
    }
}

// the step of a pattern that is to match the whole text
fn whole_step(place: Place<'_>) -> Step<'_>
    ensures { IsWholeStep place.entry result }
{
    match place.step() {
        Step::End if place.text.is_empty() => Step::End,
        Step::End => Step::Stuck,
        Step::Star(after) => Step::Star(after),
        Step::Byte(after) => Step::Byte(after),
        Step::Stuck => Step::Stuck,
    }
}

// where the last star takes one byte more
pub(crate) fn later<'a>(last: Option<Place<'a>>) -> Option<Place<'a>>
    ensures { Later (option_map spot last.entry) (option_map spot result) }
{
    let place = last?;
    let (_, text) = place.items.next_byte(place.text)?;
    Some(Place {
        items: place.items,
        text,
    })
}

fn scan(pattern: &[(u8, bool)], text: &[u8]) -> bool
    ensures yes { IsTrue result → Matches (items_of pattern.now) text.now }
    ensures no { Matches (items_of pattern.now) text.now → IsTrue result }
{
    let mut here = Place {
        items: Items::Front(pattern),
        text,
    };
    let mut last = None;
    'scan: loop {
        match whole_step(here) {
            Step::Star(place) => {
                here = place;
                last = Some(place);
            }
            Step::Byte(place) => here = place,
            Step::End => return true,
            Step::Stuck => match later(last) {
                None => return false,
                Some(place) => {
                    here = place;
                    last = Some(place);
                }
            },
        }
    }
}

/// Whether the pattern matches the whole text (POSIX.1-2017, Shell Command Language, 2.13). Takes no memory. It goes
/// back to its last star alone, so it takes at most one step more for each pair of a piece and a byte.
pub fn matches(pattern: &Pattern, text: &[u8]) -> bool
    ensures yes { IsTrue result → Matches (items_of pattern.now) text.now }
    ensures no { Matches (items_of pattern.now) text.now → IsTrue result }
{
    scan(pattern.as_slice(), text)
}
