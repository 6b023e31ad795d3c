//! A board, and what is read of it.

ghost use Rattle.std.specs.Prelude.{◌≡◌, ◌⊎◌, ◌≤◌, ◌↔◌, ◌*◌, true, false, [], length, IsTrue, Err, IfOk, OnErr, OnOk};
ghost use Rattle.bd_dev.specs.declared.plant.Area.TheVariants.{Disk};
ghost use Rattle.bd_dev.specs.Content.{window};
ghost use Rattle.bd_dev.specs.Faults.{HasCause};
ghost use Rattle.bd_dev.specs.Plant.{IsRange};
ghost use Rattle.soundness.specs.declared.judging.SoundKind.{SoundKind};
ghost use Rattle.soundness.specs.Judgement.{HoldsOnie, IsUnsound};
ghost use Rattle.cuts.specs.Law.{IsStart};
ghost use Rattle.cuts.specs.Spans.{EndsSettled, Opens, Spans, state_of};
ghost use Rattle.bd_dev.specs.Runs.{Continues, WritesAtMost};
ghost use Rattle.storage_model.specs.Copies.{AgreesOffTable, ReadsBoth, TouchesLesser, WritesNothing};
ghost use Rattle.gpt_copy.specs.declared.table.Table.{Table};
ghost use Rattle.cuts.specs.States.{nothing};
ghost use Rattle.board.specs.Held.{IsLive, Keeps, disk_of, value_of};
ghost use Rattle.board.specs.Journal.{total_of};
ghost use Rattle.board.specs.Opening.{IsReadOf, IsReady};

use crate::journal::Journal;
use crate::opening::{OpenFault, Opened, prepare};
use bd_dev::{Area, Failed, Memory, Plant, read_sectors};
use boot_vars::BootVars;
use cuts::Effect;
use gpt_copy::Table;
use soundness::has_onie_image;
use std::alloc::Global;

/// What a board keeps beside its plant: its table, its variables, the effects that it had, and whether its plant
/// failed.
#[derive(Drop)]
pub struct Held {
    pub(crate) table: Table,
    pub(crate) vars: BootVars,
    pub(crate) journal: Journal,
    pub(crate) failed: bool,
}

/// A board that was sound when it was opened, over a plant that it is lent.
#[derive(Drop)]
pub struct Board<'a, P: Plant> {
    pub(crate) alloc: Global,
    pub(crate) plant: &'a mut P,
    pub(crate) held: Held,
}

impl<'a, P: Plant> Board<'a, P> {
    /// Readies a sound board, see [`prepare`], and gives it with no effects yet.
    ///
    /// Of the plant of a board that was refused no clause speaks here: who needs that calls [`prepare`], which speaks of
    /// it at every answer, and then [`Board::over`].
    ///
    /// `NotSound` with the first test that fails, in the order of [`SoundKind`](soundness::SoundKind). `Fault` where the
    /// plant fails. `Memory` where that is wanting.
    pub fn open(alloc: Global, plant: &'a mut P) -> Result<Board<'a, P>, OpenFault>
        ensures same_reference { IfOk result (λ board. board.plant.ghost_name ≡ plant.entry.ghost_name) }
        ensures continues { IfOk result (λ board. Continues (P.view plant.old) (P.view board.plant.now)) }
        ensures quiet { IfOk result (λ board. (P.view board.plant.now).faults ≡ (P.view plant.old).faults) }
        ensures live { IfOk result (λ board. IsLive (P.view board.plant.now) board.held) }
        ensures fresh { IfOk result (λ board. board.held.journal.effects ≡ []) }
        ensures start { IfOk result (λ board. (P.view board.plant.now).tells
            → IsStart (P.view board.plant.now).size (state_of (value_of (P.view board.plant.now) board.held)) nothing) }
        ensures unsound { (kind : SoundKind) → (P.view plant.old).tells → result ≡ Err (OpenFault.NotSound kind)
            → IsUnsound (P.view plant.old).size (P.view plant.old).reads kind }
        ensures exact { (kind : SoundKind) → (P.view plant.old).tells → IsUnsound (P.view plant.old).size (P.view plant.old).reads kind
            → (result ≡ Err (OpenFault.NotSound kind)) ⊎ ((result ≡ Err OpenFault.Fault) ⊎ (result ≡ Err OpenFault.Memory)) }
        ensures opens { (P.view plant.old).tells → IfOk result (λ board. Opens (P.view plant.old) (P.view board.plant.now)) }
        ensures settled { (P.view plant.old).tells → IfOk result (λ board. EndsSettled (P.view plant.old) (P.view board.plant.now)) }
        ensures kept { (P.view plant.old).tells → IfOk result (λ board.
            AgreesOffTable ((P.view plant.old).size Disk) (P.view plant.old).reads (P.view board.plant.now).reads) }
        ensures lesser { (P.view plant.old).tells → IfOk result (λ board. TouchesLesser (P.view plant.old) (P.view board.plant.now)) }
        ensures agreeing { (P.view plant.old).tells → (t : Table)
            → ReadsBoth ((P.view plant.old).size Disk) ((P.view plant.old).reads Disk) t
            → IfOk result (λ board. WritesNothing (P.view plant.old) (P.view board.plant.now)) }
        ensures wears { (P.view plant.old).tells → IfOk result (λ board. WritesAtMost Disk 33 (P.view plant.old) (P.view board.plant.now)) }
        ensures read { (P.view plant.old).tells
            → IfOk result (λ board. IsReadOf (P.view plant.old) (record { table = board.held.table; vars = board.held.vars })) }
    {
        let opened = prepare(alloc, plant)?;
        Ok(Board::over(alloc, plant, opened))
    }

    /// A board over a plant that was readied, with no effects yet. It takes no memory.
    pub fn over(alloc: Global, plant: &'a mut P, opened: Opened) -> Board<'a, P>
        requires { IsReady (P.view plant.old) opened }
        ensures same_reference { result.plant.ghost_name ≡ plant.entry.ghost_name }
        ensures plant { result.plant.now ≡ plant.old }
        ensures table { result.held.table ≡ opened.table }
        ensures vars { result.held.vars ≡ opened.vars }
        ensures fresh { result.held.journal.effects ≡ [] }
        ensures live { IsLive (P.view result.plant.now) result.held }
        ensures start { (P.view plant.old).tells
            → IsStart (P.view plant.old).size (state_of (value_of (P.view result.plant.now) result.held)) nothing }
        ensures span { (P.view plant.old).tells
            → Spans (value_of (P.view plant.old) result.held) (value_of (P.view plant.old) result.held) }
    {
        Board {
            alloc,
            plant,
            held: Held {
                table: opened.table,
                vars: opened.vars,
                journal: Journal::new(alloc),
                failed: false,
            },
        }
    }

    /// Sets memory aside for so many effects in all, a text of 8,180 bytes for each. From then on [`Board::sync`],
    /// `set_table`, `set_var` and `unset_var` take from it, and answer `Memory` only once it is used up.
    pub fn reserve(&mut self, effects: usize) -> Result<(), Memory>
        requires live { IsLive (P.view self.old.plant.now) self.old.held }
        ensures same_reference { self.new.plant.ghost_name ≡ self.old.plant.ghost_name }
        ensures plant { self.new.plant.now ≡ self.old.plant.now }
        ensures table { self.new.held.table ≡ self.old.held.table }
        ensures vars { self.new.held.vars ≡ self.old.held.vars }
        ensures keeps { Keeps (P.view self.old.plant.now) self.old.held (P.view self.new.plant.now) self.new.held }
        ensures live { IsLive (P.view self.new.plant.now) self.new.held }
        ensures effects { self.new.held.journal.effects ≡ self.old.held.journal.effects }
        ensures enough { OnOk result (effects ≤ self.new.held.journal.spare) }
        ensures kept { self.old.held.journal.spare ≤ self.new.held.journal.spare }
    {
        self.held.journal.reserve(self.alloc, effects)
    }

    /// Fills `out` with whole sectors of the disk from the address `lba` on: as the effects left them. `Failed` where
    /// the plant fails: then the board has failed, without an effect.
    pub fn read(&mut self, lba: u64, out: &mut [u8]) -> Result<(), Failed>
        requires live { IsLive (P.view self.old.plant.now) self.old.held }
        requires range { IsRange (P.view self.old.plant.now) Disk lba (length out.old) }
        ensures same_reference { self.new.plant.ghost_name ≡ self.old.plant.ghost_name }
        ensures bytes { (P.view self.old.plant.now).tells → OnOk result
            (out.new ≡ window (disk_of (P.view self.old.plant.now) self.old.held) (512 * lba) (length out.old)) }
        ensures held { OnOk result (self.new.held ≡ self.old.held) }
        ensures failed { OnErr result (self.new.held ≡ record self.old.held { failed = true }) }
        ensures keeps { Keeps (P.view self.old.plant.now) self.old.held (P.view self.new.plant.now) self.new.held }
        ensures live { OnOk result (IsLive (P.view self.new.plant.now) self.new.held) }
        ensures cause { HasCause (P.view self.old.plant.now).faults (P.view self.new.plant.now).faults result }
    {
        if let Err(failed) = read_sectors(self.plant, Area::Disk, lba, out) {
            self.held.failed = true;
            return Err(failed);
        }
        Ok(())
    }

    /// Whether the table has exactly one entry of ONIE's type, and that one holds an image. `Failed` where the plant
    /// fails: then the board has failed, without an effect.
    pub fn has_image(&mut self) -> Result<bool, Failed>
        requires live { IsLive (P.view self.old.plant.now) self.old.held }
        ensures same_reference { self.new.plant.ghost_name ≡ self.old.plant.ghost_name }
        ensures judged { (P.view self.old.plant.now).tells → IfOk result
            (λ r. IsTrue r ↔ HoldsOnie (disk_of (P.view self.old.plant.now) self.old.held) self.old.held.table) }
        ensures held { OnOk result (self.new.held ≡ self.old.held) }
        ensures failed { OnErr result (self.new.held ≡ record self.old.held { failed = true }) }
        ensures keeps { Keeps (P.view self.old.plant.now) self.old.held (P.view self.new.plant.now) self.new.held }
        ensures live { OnOk result (IsLive (P.view self.new.plant.now) self.new.held) }
        ensures cause { HasCause (P.view self.old.plant.now).faults (P.view self.new.plant.now).faults result }
    {
        match has_onie_image(self.plant, &self.held.table) {
            Ok(has) => Ok(has),
            Err(failed) => {
                self.held.failed = true;
                Err(failed)
            }
        }
    }

    /// The table of a board that has not failed.
    pub fn table(&self) -> &Table
        requires live { self.now.held.failed ≡ false }
        ensures { result.now ≡ self.now.held.table }
    {
        &self.held.table
    }

    /// The variables of a board that has not failed.
    pub fn vars(&self) -> &BootVars
        requires live { self.now.held.failed ≡ false }
        ensures { result.now ≡ self.now.held.vars }
    {
        &self.held.vars
    }

    /// The effects since the opening, in their order. The last one of a board that failed in it may be half done.
    pub fn journal(&self) -> &[Effect]
        ensures { result.now ≡ self.now.held.journal.effects }
    {
        self.held.journal.as_slice()
    }

    /// The number of sectors that the effects of a board put that has not failed, or 2^64 - 1 where they are more.
    pub fn sectors_put(&self) -> u64
        requires live { self.now.held.failed ≡ false }
        ensures { result ≡ total_of self.now.held.journal.effects }
    {
        self.held.journal.sectors()
    }

    /// The number of the disk's sectors: the same at all times, also where the plant failed.
    pub fn sectors(&self) -> u64
        ensures { result ≡ (P.view self.now.plant.now).size Disk }
    {
        self.plant.sectors(Area::Disk)
    }

    /// Whether the plant failed in a call. Then no other call is made.
    pub fn failed(&self) -> bool
        ensures { result ≡ self.now.held.failed }
    {
        self.held.failed
    }
}
