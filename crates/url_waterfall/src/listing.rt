//! Candidates in a list, each shown text once.

ghost use Rattle.std.specs.Prelude.{◌≡◌, [], OnOk};
ghost use Rattle.url_waterfall.specs.Firsts.{IsIndex, with_new};

use crate::candidate::Candidate;
use bd_dev::Memory;
use std::alloc::Global;
use std::collections::BTreeSet;

/// Candidates in the order in which they came, and what they show in the order of its bytes. So whether a text is shown
/// already costs the logarithm of their number.
#[derive(Drop)]
pub(crate) struct Listing {
    pub(crate) items: Vec<Candidate>,
    pub(crate) shown: BTreeSet<Vec<u8>>,
}

impl Listing {
    /// No candidate. Takes no memory.
    pub(crate) fn new(alloc: Global) -> Listing
        ensures none { result.items.items ≡ [] }
        ensures index { IsIndex result.shown result.items.items }
    {
        Listing {
            items: Vec::new(alloc),
            shown: BTreeSet::new(alloc),
        }
    }

    /// Puts the candidate at the end, unless its text is shown already. Or answers `Memory`.
    pub(crate) fn push(&mut self, alloc: Global, candidate: Candidate) -> Result<(), Memory>
        requires { IsIndex self.old.shown self.old.items.items }
        ensures pushed { OnOk result (self.new.items.items ≡ with_new self.old.items.items candidate) }
        ensures index { OnOk result (IsIndex self.new.shown self.new.items.items) }
    {
        let text = Vec::from_slice(alloc, candidate.shown.as_slice())?;
        if self.shown.insert(text)? {
            self.items.push(candidate)?;
        }
        Ok(())
    }
}
