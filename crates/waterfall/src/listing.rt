//! Candidates in a list, each shown text once.

ghost use Rattle.std.specs.Prelude.{◌≡◌, [], OnOk};
ghost use Rattle.waterfall.specs.Firsts.{with_new};

use crate::candidate::Candidate;
use bd_dev::Memory;
use std::alloc::Global;
use std::collections::BTreeSet;
use std::marker::Model;

/// Candidates in the order in which they came, each shown text once: a list of candidates.
#[derive(Drop)]
pub(crate) struct Listing {
    alloc: Global,
    items: Vec<Candidate>,
    // What they show, in the order of its bytes. So whether a text is shown already costs the logarithm of their number.
    shown: BTreeSet<Vec<u8>>,
}

impl Model for Listing {
    ghost use Rattle.std.specs.Prelude.{List};
    ghost use Rattle.waterfall.specs.declared.candidate.Candidate.{Candidate};
    ghost use Rattle.waterfall.specs.Firsts.{IsIndex};

    ghost Value = { List Candidate };

    ghost view = { λ l. l.items.items };

    ghost invariant = { λ l. IsIndex l.shown l.items.items };
}

impl Listing {
    /// No candidate. Takes no memory.
    pub(crate) fn new(alloc: Global) -> Listing
        ensures { result ≡ [] }
    {
        Listing {
            alloc,
            items: Vec::new(alloc),
            shown: BTreeSet::new(alloc),
        }
    }

    /// Puts the candidate at the end, unless its text is shown already. Or answers `Memory`.
    pub(crate) fn push(&mut self, candidate: Candidate) -> Result<(), Memory>
        ensures { OnOk result (self.new ≡ with_new self.old candidate) }
    {
        let text = Vec::from_slice(self.alloc, candidate.shown.as_slice())?;
        // There is room before the text counts as shown, so that the two stay as they were, or change together.
        self.items.reserve(1)?;
        if self.shown.insert(text)? {
            self.items.push(candidate)?;
        }
        Ok(())
    }

    /// The candidates.
    pub(crate) fn into_items(self) -> Vec<Candidate>
        ensures { result.items ≡ self }
    {
        let Listing { items, .. } = self;
        items
    }
}
