//! The words of a line.

ghost use Rattle.std.specs.Prelude.{◌≡◌, ◌<◌, ◌++◌, ◌∷◌, [], length, map, IfOk, IfErr, OnOk};
ghost use Rattle.net_script.specs.Words.{IsCountFault, from_space, from_word, label_of, nonempty, word, words_of};

use crate::fault::ScriptKind;
use bd_dev::Memory;
use std::alloc::Global;
use std::marker::Model;

/// The words of a line, in order. A clause sees their bytes.
#[derive(Drop)]
pub(crate) struct Words<'a> {
    items: Vec<&'a [u8]>,
}

impl<'a> Model for Words<'a> {
    ghost use Rattle.std.specs.Prelude.{List, ℕ, map};

    ghost Value = { List (List ℕ) };

    ghost view = { λ w. map (λ item. item.now) w.items.items };
}

impl<'a> Words<'a> {
    /// What stands between the spaces of a line, or `Memory`.
    pub(crate) fn new(alloc: Global, line: &'a [u8]) -> Result<Words<'a>, Memory>
        ensures { IfOk result (λ words. words ≡ words_of line.now) }
    {
        let mut items = Vec::new(alloc);
        for part in line.split(|byte| *byte == b' ') {
            push_word(&mut items, part)?;
        }
        Ok(Words { items })
    }

    /// How many words there are.
    pub(crate) fn count(&self) -> usize
        ensures { result ≡ length self.now }
    {
        self.items.len()
    }

    /// The word at a place, from 0.
    pub(crate) fn get(&self, place: usize) -> &'a [u8]
        requires { place < length self.now }
        ensures { result.now ≡ word self.now place }
    {
        self.items[place]
    }

    /// Refuses other numbers of words: `Missing` and `Extra`.
    pub(crate) fn are(&self, count: usize) -> Result<(), ScriptKind>
        ensures good { OnOk result (length self.now ≡ count) }
        ensures bad { IfErr result (IsCountFault count (length self.now)) }
    {
        if self.count() < count {
            return Err(ScriptKind::Missing);
        }
        if self.count() > count {
            return Err(ScriptKind::Extra);
        }
        Ok(())
    }
}

/// Puts a part of a line at the end, unless it is empty.
fn push_word<'a>(items: &mut Vec<&'a [u8]>, part: &'a [u8]) -> Result<(), Memory>
    ensures { OnOk result (map (λ item. item.now) items.new.items
        ≡ map (λ item. item.now) items.old.items ++ nonempty (part.now ∷ [])) }
{
    if !part.is_empty() {
        items.push(part)?;
    }
    Ok(())
}

/// What begins with the next word of a text.
fn from_word(text: &[u8]) -> &[u8]
    ensures { result.now ≡ from_word text.now }
{
    let mut at = 0;
    while at < text.len() && text[at] == b' ' {
        at += 1;
    }
    &text[at..]
}

/// What begins with the next space of a text.
fn from_space(text: &[u8]) -> &[u8]
    ensures { result.now ≡ from_space text.now }
{
    let mut at = 0;
    while at < text.len() && text[at] != b' ' {
        at += 1;
    }
    &text[at..]
}

/// What begins with the third word of a line, up to the line's end.
pub(crate) fn label_in(line: &[u8]) -> &[u8]
    ensures { result.now ≡ label_of line.now }
{
    let second = from_word(from_space(from_word(line)));
    from_word(from_space(second))
}
