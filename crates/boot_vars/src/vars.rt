//! The boot variables.

ghost use Rattle.std.specs.Prelude.{◌≡◌, ◌≢◌, ◌⊎◌, ◌≤◌, ℕ, List, length, Ok, Err, Some, None, IfOk, IfSome, IsSome, IsTrue, OnErr, OnOk, OnSome, is_none, option_map, take};
ghost use Rattle.std.specs.Result.{result_err};
ghost use Rattle.bd_dev.specs.declared.plant.Area.TheVariants.{Flash};
ghost use Rattle.bd_dev.specs.Faults.{HasCauseOr};
ghost use Rattle.bd_dev.specs.Plant.{IsSynced};
ghost use Rattle.bd_text.specs.declared.guid.Guid.{Guid};
ghost use Rattle.boot_vars.specs.Setting.{Changes, IsAnswer, IsDurable, WearsFor, answer, changed, given, put_refusal, set_refusal, unset_refusal, with_variable, without};
ghost use Rattle.boot_vars.specs.Vars.{AreVars, FitsVars};
ghost use Rattle.boot_vars.specs.declared.fault.VarFault.TheVariants as var_faults;
ghost use Rattle.boot_vars.specs.declared.fault.VarsFault.TheVariants.{BadLine, Fault, NoSlot};
ghost use Rattle.bd_dev.specs.Runs.{Looks};
ghost use Rattle.slot_model.specs.Slots.{Stored};
ghost use Rattle.storage_model.specs.Variables.{HoldsVariables, IsBadLine, IsText, Names, Spells, Variable, is_name, kept_in, lines_of, mode_in, value_among, value_of};

use crate::fault::{VarFault, VarsFault};
use crate::find::value_in;
use crate::lines::{first_bad_line, is_name, is_value};
use crate::place::{has_room, place_of, write_with, write_without};
use bd_dev::{Area, Plant};
use bd_mode::Mode;
use bd_text::Guid;
use slot_pair::SlotPair;
use std::marker::Model;

/// The boot variables as the flash keeps them: the pair of slots, and the current slot's content, a text of lines. The
/// text is held here, 8,180 bytes at most, so no call takes memory.
#[derive(Drop)]
pub struct BootVars {
    pair: SlotPair<16>,
    text: [u8; 8192],
    length: usize,
}

impl Model for BootVars {
    ghost use Rattle.std.specs.Prelude.{take};
    ghost use Rattle.boot_vars.specs.Vars.{AreVars, Vars};

    ghost Value = { Vars };

    ghost view = { λ s. record { pair = s.pair; text = take s.length s.text } };

    ghost invariant = { λ s. AreVars s.length (take s.length s.text) };
}

impl BootVars {
    /// Reads the current slot of the flash's first 34 sectors, and tests each line of its content.
    ///
    /// `NoSlot` where neither slot is open or the flash is too small, `BadLine` at the first wrong line, `Fault` where
    /// the plant fails. The other slot's content is never tried.
    pub fn open<P: Plant>(plant: &mut P) -> Result<BootVars, VarsFault>
        ensures opened { (P.view plant.old).tells → IfOk result (λ vars.
            HoldsVariables ((P.view plant.old).size Flash) ((P.view plant.old).reads Flash)
            (record { number = vars.pair.number; content = vars.text })) }
        ensures fits { IfOk result (λ vars. FitsVars (P.view plant.new) vars) }
        ensures lines { IfOk result (λ vars. IsText vars.text) }
        ensures no_slot { (P.view plant.old).tells → result ≡ Err NoSlot
            → kept_in ((P.view plant.old).size Flash) ((P.view plant.old).reads Flash) ≡ None }
        ensures empty { (P.view plant.old).tells
            → kept_in ((P.view plant.old).size Flash) ((P.view plant.old).reads Flash) ≡ None
            → (result ≡ Err NoSlot) ⊎ (result ≡ Err Fault) }
        ensures bad_line { (at : ℕ) → (P.view plant.old).tells → result ≡ Err (BadLine at)
            → (kept : Stored) × (kept_in ((P.view plant.old).size Flash) ((P.view plant.old).reads Flash) ≡ Some kept)
            × IsBadLine kept.content at }
        ensures bad { (kept : Stored) (at : ℕ) → (P.view plant.old).tells
            → kept_in ((P.view plant.old).size Flash) ((P.view plant.old).reads Flash) ≡ Some kept
            → IsBadLine kept.content at → (result ≡ Err (BadLine at)) ⊎ (result ≡ Err Fault) }
        ensures looks { Looks (P.view plant.old) (P.view plant.new) }
        ensures cause { HasCauseOr Fault (P.view plant.old).faults (P.view plant.new).faults result }
    {
        let pair = SlotPair::<16>::open(plant, Area::Flash, 0)?;
        let mut text = [0; 8192];
        let length = pair.read(plant, &mut text)?;
        if let Some(at) = first_bad_line(&text[..length]) {
            return Err(VarsFault::BadLine { at: at as u32 });
        }
        Ok(BootVars { pair, text, length })
    }

    /// The whole text: the lines of the variables, at most 8,180 bytes.
    pub fn text(&self) -> &[u8]
        ensures bytes { result.now ≡ self.now.text }
        ensures lines { IsText result.now }
        ensures short { length result.now ≤ 8180 }
    {
        &self.text[..self.length]
    }

    /// The value of the variable of this name, or None where there is no such variable.
    pub fn get(&self, name: &[u8]) -> Option<&[u8]>
        ensures found { option_map (λ value. value.now) result ≡ value_of self.now.text name.now }
        ensures listed { (vs : List Variable) → Spells self.now.text vs
            → option_map (λ value. value.now) result ≡ value_among vs name.now }
    {
        value_in(self.text(), name)
    }

    /// The mode that `onie_boot_reason` asks for: None where that variable is not there, or its value is no mode.
    pub fn mode(&self) -> Option<Mode>
        ensures { result ≡ mode_in self.now.text }
    {
        let reason = self.get(b"onie_boot_reason")?;
        Mode::parse(reason)
    }

    /// The GUID of the operating system that is to boot: None where `nos_bootcmd` is not there, or does not read
    /// `boot `, a GUID in letters of either case, and no more.
    pub fn named(&self) -> Option<Guid>
        ensures sound { IfSome result (λ g. Names self.now.text g) }
        ensures only { (g : Guid) → Names self.now.text g → result ≡ Some g }
    {
        let command = self.get(b"nos_bootcmd")?;
        let spelling = command.strip_prefix(b"boot ")?;
        Guid::parse(spelling)
    }

    /// What [`BootVars::set`] would answer, but for `Fault`.
    pub fn may_set(&self, name: &[u8], value: &[u8]) -> Result<(), VarFault>
        ensures never { result ≢ Err var_faults.Fault }
        ensures answer { (vs : List Variable) → Spells self.now.text vs
            → result ≡ answer (set_refusal vs self.now.pair.number (given name.now value.now)) }
    {
        if !is_name(name) {
            return Err(VarFault::BadName);
        }
        if !is_value(value) {
            return Err(VarFault::BadText);
        }
        let text = self.text();
        let place = place_of(text, name);
        if !has_room(text.len() - place.size, name, value) {
            return Err(VarFault::VarsFull);
        }
        self.may_put()
    }

    /// The text with this variable: in the place of the line of its name, or in a line behind all others. It is the
    /// front of `out`, of so many bytes.
    ///
    /// `BadName` where the name is not 1 to 64 letters, digits or `_`, else `BadText` where the value is not printable
    /// ASCII, else `VarsFull` where the text would pass 8,180 bytes, else `SeqEnd` where no number is left for a put.
    pub fn text_with(
        &self,
        name: &[u8],
        value: &[u8],
        out: &mut [u8; 8192],
    ) -> Result<usize, VarFault>
        ensures refusal { (vs : List Variable) → Spells self.now.text vs
            → result_err result ≡ set_refusal vs self.now.pair.number (given name.now value.now) }
        ensures never { result ≢ Err var_faults.Fault }
        ensures lines { (vs : List Variable) → Spells self.now.text vs → IfOk result
            (λ size. take size out.new ≡ lines_of (with_variable vs (given name.now value.now))) }
        ensures vars { IfOk result (λ size. AreVars size (take size out.new)) }
        ensures number { OnOk result (put_refusal self.now.pair.number ≡ None) }
    {
        self.may_set(name, value)?;
        let place = place_of(self.text(), name);
        Ok(write_with(self.text(), place, name, value, out))
    }

    /// The text without the variable of this name, as the front of `out`, of so many bytes: None where there is no such
    /// variable.
    ///
    /// `BadName` where the name is not 1 to 64 letters, digits or `_`; `SeqEnd` where there is such a variable and no
    /// number is left for a put.
    pub fn text_without(&self, name: &[u8], out: &mut [u8; 8192]) -> Result<Option<usize>, VarFault>
        ensures refusal { (vs : List Variable) → Spells self.now.text vs
            → result_err result ≡ unset_refusal vs self.now.pair.number name.now }
        ensures never { result ≢ Err var_faults.Fault }
        ensures there { (vs : List Variable) → Spells self.now.text vs → IfOk result
            (λ size. is_none size ≡ is_none (value_among vs name.now)) }
        ensures lines { (vs : List Variable) → Spells self.now.text vs → IfOk result
            (λ found. IfSome found (λ size. take size out.new ≡ lines_of (without vs name.now))) }
        ensures vars { IfOk result (λ found. IfSome found (λ size. AreVars size (take size out.new))) }
        ensures number { IfOk result (λ found. OnSome found (put_refusal self.now.pair.number ≡ None)) }
    {
        if !is_name(name) {
            return Err(VarFault::BadName);
        }
        let place = place_of(self.text(), name);
        if place.size == 0 {
            return Ok(None);
        }
        self.may_put()?;
        Ok(Some(write_without(self.text(), place, out)))
    }

    /// `SeqEnd` where no number is left for a put.
    fn may_put(&self) -> Result<(), VarFault>
        ensures { result ≡ answer (put_refusal self.now.pair.number) }
    {
        if self.pair.is_last() {
            return Err(VarFault::SeqEnd);
        }
        Ok(())
    }

    /// Gives the variable of this name this value: in the place of its line, or in a line behind all others. A crash at
    /// any moment leaves the variables before or after the change, and after Ok those after it. The plant fits the
    /// variables, and nothing of the flash is unsynced.
    ///
    /// `BadName` where the name is not 1 to 64 letters, digits or `_`, else `BadText` where the value is not printable
    /// ASCII, else `VarsFull` where the text would pass 8,180 bytes, else `SeqEnd` where no number is left for a put:
    /// then no call was made. `Fault` where the plant fails: then these variables may no longer fit the plant.
    pub fn set<P: Plant>(
        &mut self,
        plant: &mut P,
        name: &[u8],
        value: &[u8],
    ) -> Result<(), VarFault>
        requires fits { FitsVars (P.view plant.old) self.old }
        requires synced { (P.view plant.old).tells → IsSynced (P.view plant.old) Flash }
        ensures answer { (vs : List Variable) → Spells self.old.text vs
            → IsAnswer (set_refusal vs self.old.pair.number (given name.now value.now)) result }
        ensures refused { (vs : List Variable) → Spells self.old.text vs
            → IsSome (set_refusal vs self.old.pair.number (given name.now value.now)) → plant.new ≡ plant.old }
        ensures kept { OnErr result (self.new ≡ self.old) }
        ensures set { (vs : List Variable) → Spells self.old.text vs → OnOk result
            (self.new ≡ changed self.old (lines_of (with_variable vs (given name.now value.now)))) }
        ensures durable { OnOk result (IsDurable (P.view plant.new) self.new) }
        ensures changes { (vs : List Variable) → Spells self.old.text vs
            → Changes self.old (lines_of (with_variable vs (given name.now value.now)))
            (P.view plant.old) (P.view plant.new) }
        ensures wears { (vs : List Variable) → Spells self.old.text vs
            → WearsFor (lines_of (with_variable vs (given name.now value.now)))
            (P.view plant.old) (P.view plant.new) }
        ensures cause { HasCauseOr var_faults.Fault (P.view plant.old).faults (P.view plant.new).faults result }
    {
        let mut text = [0; 8192];
        let length = self.text_with(name, value, &mut text)?;
        self.store(plant, &text, length)
    }

    /// Takes out the variable of this name. Where there is none, nothing is done. A crash at any moment leaves the
    /// variables before or after the change, and after Ok those after it. The plant fits the variables, and nothing of
    /// the flash is unsynced.
    ///
    /// `BadName` where the name is not 1 to 64 letters, digits or `_`; `SeqEnd` where there is such a variable and no
    /// number is left for a put: then no call was made. `Fault` where the plant fails: then these variables may no
    /// longer fit the plant.
    pub fn unset<P: Plant>(&mut self, plant: &mut P, name: &[u8]) -> Result<(), VarFault>
        requires fits { FitsVars (P.view plant.old) self.old }
        requires synced { (P.view plant.old).tells → IsSynced (P.view plant.old) Flash }
        ensures answer { (vs : List Variable) → Spells self.old.text vs
            → IsAnswer (unset_refusal vs self.old.pair.number name.now) result }
        ensures refused { (vs : List Variable) → Spells self.old.text vs
            → IsSome (unset_refusal vs self.old.pair.number name.now) → plant.new ≡ plant.old }
        ensures absent { (vs : List Variable) → Spells self.old.text vs → value_among vs name.now ≡ None
            → (plant.new ≡ plant.old) × (self.new ≡ self.old) }
        ensures done { (vs : List Variable) → Spells self.old.text vs → value_among vs name.now ≡ None
            → IsTrue (is_name name.now) → result ≡ Ok tt }
        ensures kept { OnErr result (self.new ≡ self.old) }
        ensures set { (vs : List Variable) → Spells self.old.text vs → IsSome (value_among vs name.now) → OnOk result
            (self.new ≡ changed self.old (lines_of (without vs name.now))) }
        ensures durable { OnOk result (IsDurable (P.view plant.new) self.new) }
        ensures changes { (vs : List Variable) → Spells self.old.text vs
            → Changes self.old (lines_of (without vs name.now)) (P.view plant.old) (P.view plant.new) }
        ensures wears { (vs : List Variable) → Spells self.old.text vs
            → WearsFor (lines_of (without vs name.now)) (P.view plant.old) (P.view plant.new) }
        ensures cause { HasCauseOr var_faults.Fault (P.view plant.old).faults (P.view plant.new).faults result }
    {
        let mut text = [0; 8192];
        match self.text_without(name, &mut text)? {
            Some(length) => self.store(plant, &text, length),
            None => Ok(()),
        }
    }

    /// Puts the first `length` bytes, which are a text of variables, in the place of the text. A crash at any moment
    /// leaves the text before or after it, and after Ok the one after it. The plant fits the variables, and nothing of
    /// the flash is unsynced.
    ///
    /// `SeqEnd` where no number is left for a put: then no call was made. `Fault` where the plant fails: then these
    /// variables may no longer fit the plant.
    pub fn store<P: Plant>(
        &mut self,
        plant: &mut P,
        text: &[u8; 8192],
        length: usize,
    ) -> Result<(), VarFault>
        requires fits { FitsVars (P.view plant.old) self.old }
        requires synced { (P.view plant.old).tells → IsSynced (P.view plant.old) Flash }
        requires vars { AreVars length (take length text.now) }
        ensures answer { IsAnswer (put_refusal self.old.pair.number) result }
        ensures refused { IsSome (put_refusal self.old.pair.number) → plant.new ≡ plant.old }
        ensures kept { OnErr result (self.new ≡ self.old) }
        ensures set { OnOk result (self.new ≡ changed self.old (take length text.now)) }
        ensures durable { OnOk result (IsDurable (P.view plant.new) self.new) }
        ensures changes { Changes self.old (take length text.now) (P.view plant.old) (P.view plant.new) }
        ensures wears { WearsFor (take length text.now) (P.view plant.old) (P.view plant.new) }
        ensures cause { HasCauseOr var_faults.Fault (P.view plant.old).faults (P.view plant.new).faults result }
    {
        self.pair.put(plant, &text[..length])?;
        self.text = *text;
        self.length = length;
        Ok(())
    }
}
