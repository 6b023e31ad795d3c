//! The changes of a board: each is one effect.

ghost use Rattle.std.specs.Prelude.{◌≡◌, ◌≢◌, ◌≤◌, ◌<◌, ◌+◌, ◌-◌, ◌/◌, ◌%◌, ◌^◌, false, length, nat_lt, Err, None, OnOk};
ghost use Rattle.bd_dev.specs.declared.plant.Area.TheVariants.{Disk};
ghost use Rattle.bd_dev.specs.Faults.{HasCauseOr};
ghost use Rattle.cuts.specs.declared.effect.Effect.TheVariants.{Put, Sync, Table as SetTable};
ghost use Rattle.cuts.specs.Orderly.{IsLawfulTable};
ghost use Rattle.bd_dev.specs.Runs.{WritesAtMost};
ghost use Rattle.board.specs.Changes.{Does, IsAnswer, put_refusal};
ghost use Rattle.board.specs.Held.{IsLive, Keeps, Leaves};

use crate::board::Board;
use crate::fault::BoardFault;
use bd_dev::{Area, Plant, sync_area, write_sectors};
use cuts::Effect;
use gpt_copy::Table;
use gpt_table::{replace, touches_copy};

/// Whether so many sectors from this address on pass the disk's end.
fn passes_end(sectors: u64, lba: u64, count: u64) -> bool
    ensures { result ≡ nat_lt sectors (lba + count) }
{
    lba > sectors || count > sectors - lba
}

impl<'a, P: Plant> Board<'a, P> {
    /// Puts whole sectors on the disk, 1 to 2,048 of them, from the address `lba` on. They are durable after the next
    /// `sync` or `set_table`.
    ///
    /// `Range` where they pass the disk's end, else `OnTable` where they touch a copy of the table: sectors 1 to 33, or
    /// the last 33. `Fault` where the plant fails. `Memory` where the effect can't be noted.
    pub fn put(&mut self, lba: u64, bytes: &[u8]) -> Result<(), BoardFault>
        requires live { IsLive (P.view self.old.plant.now) self.old.held }
        requires whole { length bytes.now % 512 ≡ 0 }
        requires some { 512 ≤ length bytes.now }
        requires few { length bytes.now ≤ 1048576 }
        ensures same_reference { self.new.plant.ghost_name ≡ self.old.plant.ghost_name }
        ensures answer { IsAnswer (put_refusal ((P.view self.old.plant.now).size Disk) lba (length bytes.now / 512)) result }
        ensures effect { Does (Put lba bytes.now) (self.new.plant.now ≡ self.old.plant.now) result self.old.held self.new.held }
        ensures leaves { Leaves (Put lba bytes.now) result (P.view self.old.plant.now) self.old.held
            (P.view self.new.plant.now) self.new.held }
        ensures wears { (P.view self.old.plant.now).tells
            → WritesAtMost Disk (length bytes.now / 512) (P.view self.old.plant.now) (P.view self.new.plant.now) }
        ensures table { self.new.held.table ≡ self.old.held.table }
        ensures vars { self.new.held.vars ≡ self.old.held.vars }
        ensures spare { self.new.held.journal.spare ≡ self.old.held.journal.spare }
        ensures keeps { Keeps (P.view self.old.plant.now) self.old.held (P.view self.new.plant.now) self.new.held }
        ensures live { OnOk result (IsLive (P.view self.new.plant.now) self.new.held) }
        ensures cause { HasCauseOr BoardFault.Fault (P.view self.old.plant.now).faults (P.view self.new.plant.now).faults result }
    {
        let sectors = self.plant.sectors(Area::Disk);
        let count = bytes.len() as u64 / 512;
        if passes_end(sectors, lba, count) {
            return Err(BoardFault::Range);
        }
        if touches_copy(sectors, lba, count) {
            return Err(BoardFault::OnTable);
        }
        if let Err(_memory) = self.held.journal.note_put(self.alloc, lba, bytes) {
            return Err(BoardFault::Memory);
        }
        if let Err(_failed) = write_sectors(self.plant, Area::Disk, lba, bytes) {
            self.held.failed = true;
            return Err(BoardFault::Fault);
        }
        Ok(())
    }

    /// Makes all that was put durable. `Fault` where the plant fails. `Memory` where the effect can't be noted.
    pub fn sync(&mut self) -> Result<(), BoardFault>
        requires live { IsLive (P.view self.old.plant.now) self.old.held }
        ensures same_reference { self.new.plant.ghost_name ≡ self.old.plant.ghost_name }
        ensures answer { IsAnswer None result }
        ensures effect { Does Sync (self.new.plant.now ≡ self.old.plant.now) result self.old.held self.new.held }
        ensures leaves { Leaves Sync result (P.view self.old.plant.now) self.old.held
            (P.view self.new.plant.now) self.new.held }
        ensures wears { (P.view self.old.plant.now).tells
            → WritesAtMost Disk 0 (P.view self.old.plant.now) (P.view self.new.plant.now) }
        ensures table { self.new.held.table ≡ self.old.held.table }
        ensures vars { self.new.held.vars ≡ self.old.held.vars }
        ensures spare { OnOk result (self.new.held.journal.spare ≡ self.old.held.journal.spare - 1) }
        ensures free { self.old.held.journal.spare ≢ 0 → result ≢ Err BoardFault.Memory }
        ensures keeps { Keeps (P.view self.old.plant.now) self.old.held (P.view self.new.plant.now) self.new.held }
        ensures live { OnOk result (IsLive (P.view self.new.plant.now) self.new.held) }
        ensures cause { HasCauseOr BoardFault.Fault (P.view self.old.plant.now).faults (P.view self.new.plant.now).faults result }
    {
        if let Err(_memory) = self.held.journal.note(Effect::Sync) {
            return Err(BoardFault::Memory);
        }
        if let Err(_failed) = sync_area(self.plant, Area::Disk) {
            self.held.failed = true;
            return Err(BoardFault::Fault);
        }
        Ok(())
    }

    /// Sets another table: a sane one of the same disk, with the same usable range. What was put is durable then, too.
    /// `Fault` where the plant fails. `Memory` where the effect can't be noted.
    pub fn set_table(&mut self, table: &Table) -> Result<(), BoardFault>
        requires live { IsLive (P.view self.old.plant.now) self.old.held }
        requires lawful { IsLawfulTable self.old.held.table table.now }
        ensures same_reference { self.new.plant.ghost_name ≡ self.old.plant.ghost_name }
        ensures answer { IsAnswer None result }
        ensures effect { Does (SetTable table.now) (self.new.plant.now ≡ self.old.plant.now) result self.old.held self.new.held }
        ensures leaves { Leaves (SetTable table.now) result (P.view self.old.plant.now) self.old.held
            (P.view self.new.plant.now) self.new.held }
        ensures wears { (P.view self.old.plant.now).tells
            → WritesAtMost Disk 66 (P.view self.old.plant.now) (P.view self.new.plant.now) }
        ensures table { OnOk result (self.new.held.table ≡ table.now) }
        ensures vars { self.new.held.vars ≡ self.old.held.vars }
        ensures spare { OnOk result (self.new.held.journal.spare ≡ self.old.held.journal.spare - 1) }
        ensures free { self.old.held.journal.spare ≢ 0 → result ≢ Err BoardFault.Memory }
        ensures keeps { Keeps (P.view self.old.plant.now) self.old.held (P.view self.new.plant.now) self.new.held }
        ensures live { OnOk result (IsLive (P.view self.new.plant.now) self.new.held) }
        ensures cause { HasCauseOr BoardFault.Fault (P.view self.old.plant.now).faults (P.view self.new.plant.now).faults result }
    {
        if let Err(_memory) = self.held.journal.note(Effect::Table(*table)) {
            return Err(BoardFault::Memory);
        }
        if let Err(_failed) = replace(self.plant, table) {
            self.held.failed = true;
            return Err(BoardFault::Fault);
        }
        self.held.table = *table;
        Ok(())
    }
}
