//! The ends of a text that a pattern matches.

ghost use Rattle.std.specs.Prelude.{List, reverse, ◌↔◌};
ghost use Rattle.sh_expand.specs.Pattern.{Text, Item, Matches};
ghost use Rattle.sh_expand.specs.Cut.{Begins};
ghost use Rattle.sh_expand.specs.CutEnd.{IsEnd};

/// A pattern matches a text exactly where its items, taken from the back, match the text from its back. So what an end
/// of a text leaves is what a front of the reversed text leaves.
pub fn ends_are_fronts()
    ensures texts { (items : List Item) (text : Text) → Matches items text ↔ Matches (reverse items) (reverse text) }
    ensures ends { (items : List Item) (text rest : Text) → IsEnd items text rest ↔ Begins (reverse items) (reverse text) (reverse rest) }
{}
