//! The effects of a board, in their order, and room for more.

ghost use Rattle.std.specs.Prelude.{◌≡◌, ◌≢◌, ◌≤◌, ◌<◌, ◌+◌, ◌-◌, ◌%◌, ◌++◌, ◌∷◌, [], length, take, IsOk, OnErr, OnOk};
ghost use Rattle.cuts.specs.declared.effect.Effect.TheVariants.{Put, Sync, Table as SetTable, Vars as SetVars};
ghost use Rattle.board.specs.Journal.{Notes, sectors_of, total_of};

use bd_dev::{Bytes, Memory};
use cuts::Effect;
use std::alloc::Global;
use std::marker::Model;

/// The most bytes that a text of variables has.
pub(crate) const MOST_TEXT: usize = 8180;

/// The effects that a board had, and room that was set aside for more of them.
#[derive(Drop)]
pub struct Journal {
    /// The effects, with room for as many more as there are texts.
    effects: Vec<Effect>,
    /// A text for each effect for which memory is set aside.
    texts: Vec<Bytes>,
    /// The sectors that the effects put.
    sectors: u64,
}

impl Model for Journal {
    ghost use Rattle.std.specs.Prelude.{◌≡◌, length, vec_capacity};
    ghost use Rattle.board.specs.Journal.{AreTexts, HasRoom, Noted, total_of};

    ghost Value = { Noted };

    ghost view = { λ j. record { effects = j.effects.items; spare = length j.texts.items; sectors = j.sectors } };

    ghost invariant = { λ j. HasRoom (vec_capacity j.effects) (length j.effects.items) j.texts.items × (j.sectors ≡ total_of j.effects.items) };
}

impl Journal {
    /// No effects. Takes no memory.
    pub(crate) fn new(alloc: Global) -> Journal
        ensures effects { result.effects ≡ [] }
        ensures spare { result.spare ≡ 0 }
    {
        Journal {
            effects: Vec::new(alloc),
            texts: Vec::new(alloc),
            sectors: 0,
        }
    }

    /// The effects.
    pub(crate) fn as_slice(&self) -> &[Effect]
        ensures { result.now ≡ self.now.effects }
    {
        &self.effects
    }

    /// The sectors that the effects put, or 2^64 - 1 where they are more.
    pub(crate) fn sectors(&self) -> u64
        ensures { result ≡ total_of self.now.effects }
    {
        self.sectors
    }

    /// Sets room aside for one more effect.
    fn reserve_one(&mut self, alloc: Global) -> Result<(), Memory>
        ensures effects { self.new.effects ≡ self.old.effects }
        ensures more { OnOk result (self.new.spare ≡ self.old.spare + 1) }
        ensures unchanged { OnErr result (self.new.spare ≡ self.old.spare) }
    {
        let text = Bytes::from_slice(alloc, &[0; MOST_TEXT])?;
        self.effects.reserve(self.texts.len() + 1)?;
        self.texts.push(text)?;
        Ok(())
    }

    /// Sets room aside for so many effects in all.
    pub(crate) fn reserve(&mut self, alloc: Global, effects: usize) -> Result<(), Memory>
        ensures effects { self.new.effects ≡ self.old.effects }
        ensures enough { OnOk result (effects ≤ self.new.spare) }
        ensures kept { self.old.spare ≤ self.new.spare }
    {
        for _ in self.texts.len()..effects {
            self.reserve_one(alloc)?;
        }
        Ok(())
    }

    /// Notes an effect that puts no sectors, behind the others. It takes one of those for which room is set aside.
    pub(crate) fn note(&mut self, effect: Effect) -> Result<(), Memory>
        requires { sectors_of effect ≡ 0 }
        ensures noted { OnOk result (Notes self.old self.new effect) }
        ensures unchanged { OnErr result (self.new ≡ self.old) }
        ensures free { self.old.spare ≢ 0 → IsOk result }
    {
        match self.texts.pop() {
            Some(_text) => self.effects.push_reserved(effect),
            None => self.effects.push(effect)?,
        }
        Ok(())
    }

    /// Notes another text of variables. It takes one of those for which room is set aside.
    pub(crate) fn note_text(&mut self, alloc: Global, text: &[u8]) -> Result<(), Memory>
        requires { length text.now ≤ 8180 }
        ensures noted { OnOk result (Notes self.old self.new (SetVars text.now)) }
        ensures unchanged { OnErr result (self.new ≡ self.old) }
        ensures free { self.old.spare ≢ 0 → IsOk result }
    {
        match self.texts.pop() {
            Some(mut kept) => {
                kept.refill(text);
                self.effects.push_reserved(Effect::Vars(kept));
            }
            None => {
                let kept = Bytes::from_slice(alloc, text)?;
                self.effects.push(Effect::Vars(kept))?;
            }
        }
        Ok(())
    }

    /// Notes that sectors are put. It takes memory of its own.
    pub(crate) fn note_put(&mut self, alloc: Global, lba: u64, bytes: &[u8]) -> Result<(), Memory>
        ensures noted { OnOk result (self.new.effects ≡ self.old.effects ++ Put lba bytes.now ∷ []) }
        ensures spare { self.new.spare ≡ self.old.spare }
        ensures unchanged { OnErr result (self.new ≡ self.old) }
    {
        let sectors = Bytes::from_slice(alloc, bytes)?;
        self.effects.reserve(self.texts.len() + 1)?;
        self.effects.push_reserved(Effect::Put { lba, sectors });
        self.sectors = self.sectors.saturating_add(bytes.len() as u64 / 512);
        Ok(())
    }
}
