//! The changes of a board's variables: each is one effect.

ghost use Rattle.std.specs.Prelude.{◌≡◌, ◌≢◌, ◌-◌, ℕ, List, None, Err, IsOk, IsSome, IsTrue, OnOk, length, take};
ghost use Rattle.bd_dev.specs.Faults.{HasCauseOr};
ghost use Rattle.boot_vars.specs.Setting.{WearsFor, changed, put_refusal, set_refusal, unset_refusal, with_variable, without};
ghost use Rattle.boot_vars.specs.Vars.{AreVars};
ghost use Rattle.cuts.specs.declared.effect.Effect.TheVariants.{Vars as SetVars};
ghost use Rattle.board.specs.Changes.{Does, IsAnswer, Nothing, of_var_refusal};
ghost use Rattle.board.specs.Held.{IsLive, Keeps, Leaves};
ghost use Rattle.storage_model.specs.Variables.{Spells, Variable, is_name, lines_of, value_among};

use crate::board::Board;
use crate::fault::BoardFault;
use bd_dev::Plant;

impl<'a, P: Plant> Board<'a, P> {
    /// Gives the variable of this name this value: in the place of its line, or in a line behind all others.
    ///
    /// `BadName` where the name is not 1 to 64 letters, digits or `_`, else `BadText` where the value is not printable
    /// ASCII, else `VarsFull` where the text would pass 8,180 bytes, else `SeqEnd` where no number is left for a put.
    /// `Fault` where the plant fails. `Memory` where the effect can't be noted.
    pub fn set_var(&mut self, name: &[u8], value: &[u8]) -> Result<(), BoardFault>
        requires live { IsLive (P.view self.old.plant.now) self.old.held }
        ensures same_reference { self.new.plant.ghost_name ≡ self.old.plant.ghost_name }
        ensures answer { (vs : List Variable) → Spells self.old.held.vars.text vs
            → IsAnswer (of_var_refusal (set_refusal vs self.old.held.vars.pair.number (record { name = name.now; value = value.now }))) result }
        ensures effect { (vs : List Variable) → Spells self.old.held.vars.text vs
            → Does (SetVars (lines_of (with_variable vs (record { name = name.now; value = value.now })))) (self.new.plant.now ≡ self.old.plant.now) result self.old.held self.new.held }
        ensures leaves { (vs : List Variable) → Spells self.old.held.vars.text vs
            → Leaves (SetVars (lines_of (with_variable vs (record { name = name.now; value = value.now })))) result
            (P.view self.old.plant.now) self.old.held (P.view self.new.plant.now) self.new.held }
        ensures wears { (vs : List Variable) → Spells self.old.held.vars.text vs
            → WearsFor (lines_of (with_variable vs (record { name = name.now; value = value.now })))
            (P.view self.old.plant.now) (P.view self.new.plant.now) }
        ensures vars { (vs : List Variable) → Spells self.old.held.vars.text vs → OnOk result
            (self.new.held.vars ≡ changed self.old.held.vars (lines_of (with_variable vs (record { name = name.now; value = value.now })))) }
        ensures table { self.new.held.table ≡ self.old.held.table }
        ensures spare { OnOk result (self.new.held.journal.spare ≡ self.old.held.journal.spare - 1) }
        ensures free { self.old.held.journal.spare ≢ 0 → result ≢ Err BoardFault.Memory }
        ensures live { OnOk result (IsLive (P.view self.new.plant.now) self.new.held) }
        ensures keeps { Keeps (P.view self.old.plant.now) self.old.held (P.view self.new.plant.now) self.new.held }
        ensures cause { HasCauseOr BoardFault.Fault (P.view self.old.plant.now).faults (P.view self.new.plant.now).faults result }
    {
        let mut text = [0; 8192];
        let length = self.held.vars.text_with(name, value, &mut text)?;
        self.put_text(&text, length)
    }

    /// Takes out the variable of this name. Where there is none, nothing is done.
    ///
    /// `BadName` where the name is not 1 to 64 letters, digits or `_`; `SeqEnd` where there is such a variable and no
    /// number is left for a put. `Fault` where the plant fails. `Memory` where the effect can't be noted.
    pub fn unset_var(&mut self, name: &[u8]) -> Result<(), BoardFault>
        requires live { IsLive (P.view self.old.plant.now) self.old.held }
        ensures same_reference { self.new.plant.ghost_name ≡ self.old.plant.ghost_name }
        ensures answer { (vs : List Variable) → Spells self.old.held.vars.text vs
            → IsAnswer (of_var_refusal (unset_refusal vs self.old.held.vars.pair.number name.now)) result }
        ensures absent { (vs : List Variable) → Spells self.old.held.vars.text vs → value_among vs name.now ≡ None
            → Nothing (self.new.plant.now ≡ self.old.plant.now) self.old.held self.new.held }
        ensures done { (vs : List Variable) → Spells self.old.held.vars.text vs → value_among vs name.now ≡ None
            → IsTrue (is_name name.now) → IsOk result }
        ensures effect { (vs : List Variable) → Spells self.old.held.vars.text vs → IsSome (value_among vs name.now)
            → Does (SetVars (lines_of (without vs name.now))) (self.new.plant.now ≡ self.old.plant.now) result self.old.held self.new.held }
        ensures leaves { (vs : List Variable) → Spells self.old.held.vars.text vs → IsSome (value_among vs name.now)
            → Leaves (SetVars (lines_of (without vs name.now))) result
            (P.view self.old.plant.now) self.old.held (P.view self.new.plant.now) self.new.held }
        ensures wears { (vs : List Variable) → Spells self.old.held.vars.text vs
            → WearsFor (lines_of (without vs name.now)) (P.view self.old.plant.now) (P.view self.new.plant.now) }
        ensures vars { (vs : List Variable) → Spells self.old.held.vars.text vs → IsSome (value_among vs name.now) → OnOk result
            (self.new.held.vars ≡ changed self.old.held.vars (lines_of (without vs name.now))) }
        ensures table { self.new.held.table ≡ self.old.held.table }
        ensures spare { (vs : List Variable) → Spells self.old.held.vars.text vs → IsSome (value_among vs name.now) → OnOk result
            (self.new.held.journal.spare ≡ self.old.held.journal.spare - 1) }
        ensures free { self.old.held.journal.spare ≢ 0 → result ≢ Err BoardFault.Memory }
        ensures live { OnOk result (IsLive (P.view self.new.plant.now) self.new.held) }
        ensures keeps { Keeps (P.view self.old.plant.now) self.old.held (P.view self.new.plant.now) self.new.held }
        ensures cause { HasCauseOr BoardFault.Fault (P.view self.old.plant.now).faults (P.view self.new.plant.now).faults result }
    {
        let mut text = [0; 8192];
        match self.held.vars.text_without(name, &mut text)? {
            Some(length) => self.put_text(&text, length),
            None => Ok(()),
        }
    }

    /// Puts the first `length` bytes, which are a text of variables, in the place of the text, where a number is left.
    /// It is noted before the first call.
    fn put_text(&mut self, text: &[u8; 8192], length: usize) -> Result<(), BoardFault>
        requires live { IsLive (P.view self.old.plant.now) self.old.held }
        requires lines { AreVars length (take length text.now) }
        requires number { put_refusal self.old.held.vars.pair.number ≡ None }
        ensures same_reference { self.new.plant.ghost_name ≡ self.old.plant.ghost_name }
        ensures answer { IsAnswer None result }
        ensures effect { Does (SetVars (take length text.now)) (self.new.plant.now ≡ self.old.plant.now) result self.old.held self.new.held }
        ensures leaves { Leaves (SetVars (take length text.now)) result
            (P.view self.old.plant.now) self.old.held (P.view self.new.plant.now) self.new.held }
        ensures wears { WearsFor (take length text.now) (P.view self.old.plant.now) (P.view self.new.plant.now) }
        ensures vars { OnOk result (self.new.held.vars ≡ changed self.old.held.vars (take length text.now)) }
        ensures table { self.new.held.table ≡ self.old.held.table }
        ensures spare { OnOk result (self.new.held.journal.spare ≡ self.old.held.journal.spare - 1) }
        ensures free { self.old.held.journal.spare ≢ 0 → result ≢ Err BoardFault.Memory }
        ensures live { OnOk result (IsLive (P.view self.new.plant.now) self.new.held) }
        ensures keeps { Keeps (P.view self.old.plant.now) self.old.held (P.view self.new.plant.now) self.new.held }
        ensures cause { HasCauseOr BoardFault.Fault (P.view self.old.plant.now).faults (P.view self.new.plant.now).faults result }
    {
        if let Err(_memory) = self.held.journal.note_text(self.alloc, &text[..length]) {
            return Err(BoardFault::Memory);
        }
        if let Err(_fault) = self.held.vars.store(self.plant, text, length) {
            self.held.failed = true;
            return Err(BoardFault::Fault);
        }
        Ok(())
    }
}
