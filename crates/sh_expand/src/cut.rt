//! Fronts and ends that a pattern cuts off a text.

ghost use Rattle.std.specs.Prelude.{List, [], ◌↔◌, IfOk};
ghost use Rattle.sh_expand.specs.Pattern.{Text, Item, Matches, items_of};
ghost use Rattle.sh_expand.specs.Cut.{Begins, Cuts};
ghost use Rattle.sh_expand.specs.CutEnd.{CutsEnd};
ghost use Rattle.sh_expand.specs.Scan.{items_in, text_in, CutsTo};

use crate::item::items;
use crate::matching::{Items, Place, Step, later};
use bd_dev::Memory;
use sh_tree::Pattern;
use std::alloc::Global;

/// A pattern matches a text exactly where it matches it as a front that leaves nothing.
pub fn whole_front()
    ensures { (items : List Item) (text : Text) → Matches items text ↔ Begins items text [] }
{}

// how many bytes the shortest or the longest match leaves, from the side that the place is at
fn cut(items: Items<'_>, text: &[u8], longest: bool) -> Option<usize>
    ensures { CutsTo (items_in items.entry) (text_in items.entry text.now) longest result }
{
    let mut here = Place { items, text };
    let mut last = None;
    let mut best = None;
    'scan: loop {
        match here.step() {
            Step::Star(place) => {
                here = place;
                last = Some(place);
            }
            Step::Byte(place) => here = place,
            Step::End => {
                if !longest {
                    return Some(here.text.len());
                }
                best = Some(here.text.len());
                let Some(place) = later(last) else {
                    return best;
                };
                here = place;
                last = Some(place);
            }
            Step::Stuck => {
                let Some(place) = later(last) else {
                    return best;
                };
                here = place;
                last = Some(place);
            }
        }
    }
}

/// What is left of a text without the shortest or the longest front that the pattern matches, as `#` and `##` cut it
/// (POSIX.1-2017, Shell Command Language, 2.6.2). `None` where no front matches. Takes no memory, and one scan.
pub fn cut_front<'a>(pattern: &'a Pattern, text: &'a [u8], longest: bool) -> Option<&'a [u8]>
    ensures { Cuts (items_of pattern.now) text.now longest result }
{
    let size = cut(Items::Front(pattern.as_slice()), text, longest)?;
    Some(text.split_at(text.len() - size).1)
}

/// What is left of a text without the shortest or the longest end that the pattern matches, as `%` and `%%` cut it
/// (POSIX.1-2017, Shell Command Language, 2.6.2). `None` where no end matches. Takes one scan from the back, and memory
/// for the pattern's items alone.
///
/// # Errors
///
/// `Memory` where there is none for the items.
pub fn cut_end<'a>(
    alloc: Global,
    pattern: &Pattern,
    text: &'a [u8],
    longest: bool,
) -> Result<Option<&'a [u8]>, Memory>
    ensures { IfOk result (λ rest. CutsEnd (items_of pattern.now) text.now longest rest) }
{
    let items = items(alloc, pattern.as_slice())?;
    let Some(size) = cut(Items::Back(items.as_slice()), text, longest) else {
        return Ok(None);
    };
    Ok(Some(text.split_at(size).0))
}
