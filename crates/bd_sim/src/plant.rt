//! A plant in memory.

ghost use Rattle.std.specs.Prelude.{◌≡◌, ◌↔◌, ◌+◌, ◌*◌, ◌/◌, ◌%◌, ◌^◌, ◌≤◌, [], IfOk, IsErr, OnErr, OnOk, is_err, length, slice_index, true, ℕ};
ghost use Rattle.bd_dev.specs.Calls.{IsListed, after_call, no_calls};
ghost use Rattle.bd_dev.specs.Content.{window};
ghost use Rattle.bd_dev.specs.Faults.{HasCause};
ghost use Rattle.bd_dev.specs.Plant.{View, AreUnsynced, IsHonest, IsRange, IsSynced, KeepsUnsynced, OnlyReads, Passes, ReadsBetween, Syncs, WritesTo};
ghost use Rattle.bd_sim.specs.Journal.{before_call, of_area};
ghost use Rattle.bd_sim.specs.Image.{IsLeft, allows, crash_image};
ghost use Rattle.bd_sim.specs.Open.{IsInShort, IsTaken, open_sectors};
ghost use Rattle.bd_sim.specs.View.{PlantInMemory, FailsWrite, counted, none_written, synced, view_of, written};

use crate::image::{Pick, area_image, may_tear_all};
use crate::journal::{Noted, Step, note, read_back};
use crate::open::push_open;
use crate::snapshot::{Snapshot, new_content, old_content};
use crate::written::Written;
use bd_dev::{Area, CallCounter, Failed, Memory, Plant};
use std::alloc::Global;
use std::marker::Model;

/// A plant in memory. It keeps what its areas held at first, and each call that changed it since.
#[derive(Drop)]
pub struct SimPlant {
    alloc: Global,
    disk: Vec<u8>,
    flash: Vec<u8>,
    journal: Vec<Noted>,
    calls: CallCounter,
    writes: Written,
}

impl Model for SimPlant {
    ghost use Rattle.bd_sim.specs.View.{PlantInMemory};

    ghost Value = { PlantInMemory };

    ghost view = { λ p. record { disk = p.disk.items; flash = p.flash.items; journal = p.journal.items; calls = p.calls; writes = p.writes } };
}

fn of_area<'a>(disk: &'a [u8], flash: &'a [u8], area: Area) -> &'a [u8]
    ensures { result.now ≡ of_area disk.now flash.now area }
{
    match area {
        Area::Disk => disk,
        Area::Flash => flash,
    }
}

impl SimPlant {
    /// A plant whose areas hold these bytes, with nothing unsynced, whose calls with the numbers in `fails`, from 1,
    /// are to fail. Or `Memory`.
    pub fn new(alloc: Global, disk: &[u8], flash: &[u8], fails: &[u64]) -> Result<SimPlant, Memory>
        requires disk_whole { length disk.now % 512 ≡ 0 }
        requires disk_small { length disk.now ≤ 2 ^ 49 }
        requires flash_whole { length flash.now % 512 ≡ 0 }
        requires flash_small { length flash.now ≤ 2 ^ 49 }
        ensures reads { IfOk result (λ p. (a : Area)
            → (view_of p).reads a ≡ slice_index (of_area disk.now flash.now a)) }
        ensures synced { IfOk result (λ p. (a : Area) → IsSynced (view_of p) a) }
        ensures made { IfOk result (λ p. p ≡ record {
          disk = disk.now;
          flash = flash.now;
          journal = [];
          calls = no_calls fails.now;
          writes = none_written;
        }) }
    {
        Ok(SimPlant {
            alloc,
            disk: Vec::from_slice(alloc, disk)?,
            flash: Vec::from_slice(alloc, flash)?,
            journal: Vec::new(alloc),
            calls: CallCounter::new(alloc, fails)?,
            writes: Written { disk: 0, flash: 0 },
        })
    }

    /// How many reads, writes and syncs it was asked for.
    pub fn calls(&self) -> u64
        ensures { result ≡ self.now.calls.made }
    {
        self.calls.made()
    }

    /// How many sectors of an area its writes were given, whatever they answered, up to the greatest count.
    pub fn writes(&self, area: Area) -> u64
        ensures { result ≡ (view_of self.now).writes area }
    {
        self.writes.of(area)
    }

    /// Whether these picks may be asked of `image`: call number `moment` was made, or it is 0, and each sector was
    /// written since its area's last successful sync before that call, or is one that the call is to write.
    pub fn allows(&self, moment: u64, picks: &[(Area, u64, Pick)]) -> bool
        ensures { result ≡ allows self.now moment picks.now }
    {
        moment <= self.calls.made() && may_tear_all(&self.journal, moment, picks)
    }

    /// A plant that reads what a power cut within call number `moment` may leave, by these picks, with nothing
    /// unsynced and no call made. A sector without a pick is `Old`; of two picks of one sector the later stands. A
    /// write that is to fail leaves the bytes as they were. 0 is the moment before the first call. Or `Memory`.
    pub fn image(&self, moment: u64, picks: &[(Area, u64, Pick)]) -> Result<SimPlant, Memory>
        requires { allows self.now moment picks.now ≡ true }
        ensures left { IfOk result (IsLeft self.now moment picks.now) }
        ensures crash { OnOk result ((t : ℕ) → t ≤ before_call self.now.journal moment
            → (view_of self.now).left_since t (crash_image self.now moment picks.now)) }
    {
        self.left_by(moment, picks)
    }

    /// The same by any picks.
    pub(crate) fn left_by(
        &self,
        moment: u64,
        picks: &[(Area, u64, Pick)],
    ) -> Result<SimPlant, Memory>
        ensures { IfOk result (IsLeft self.now moment picks.now) }
    {
        Ok(SimPlant {
            alloc: self.alloc,
            disk: area_image(
                self.alloc,
                &self.disk,
                &self.journal,
                Area::Disk,
                moment,
                picks,
            )?,
            flash: area_image(
                self.alloc,
                &self.flash,
                &self.journal,
                Area::Flash,
                moment,
                picks,
            )?,
            journal: Vec::new(self.alloc),
            calls: CallCounter::new(self.alloc, &[])?,
            writes: Written { disk: 0, flash: 0 },
        })
    }

    /// The sectors that may be picked within call number `moment`, the disk's first, each area's in order. Or
    /// `Memory`.
    pub fn open_sectors(&self, moment: u64) -> Result<Vec<(Area, u64)>, Memory>
        ensures { IfOk result (λ sectors. sectors.items ≡ open_sectors self.now moment) }
    {
        let (alloc, journal) = (self.alloc, &self.journal);
        let mut sectors = Vec::new(alloc);
        push_open(alloc, &self.disk, journal, Area::Disk, moment, &mut sectors)?;
        push_open(
            alloc,
            &self.flash,
            journal,
            Area::Flash,
            moment,
            &mut sectors,
        )?;
        Ok(sectors)
    }

    /// The plant within call number `moment`, 0 before the first: it keeps what the areas held and would hold, so that
    /// the calls aren't gone over for each image. Or `Memory`.
    pub fn snapshot(&self, moment: u64) -> Result<Snapshot, Memory>
        requires { moment ≤ self.now.calls.made }
        ensures { IfOk result (IsTaken self.now moment) }
    {
        let sectors = self.open_sectors(moment)?;
        let short = self.in_short(moment)?;
        Ok(Snapshot { short, sectors })
    }

    // A plant whose areas hold what was synced before the call, and whose two calls write all that the call would leave.
    fn in_short(&self, moment: u64) -> Result<SimPlant, Memory>
        ensures { IfOk result (IsInShort self.now moment) }
    {
        let alloc = self.alloc;
        let disk = new_content(alloc, &self.disk, &self.journal, Area::Disk, moment)?;
        let flash = new_content(alloc, &self.flash, &self.journal, Area::Flash, moment)?;
        let mut journal = Vec::new(alloc);
        note(&mut journal, Noted::write(alloc, 1, Area::Disk, 0, &disk)?)?;
        note(
            &mut journal,
            Noted::write(alloc, 2, Area::Flash, 0, &flash)?,
        )?;
        Ok(SimPlant {
            alloc,
            disk: old_content(alloc, &self.disk, &self.journal, Area::Disk, moment)?,
            flash: old_content(alloc, &self.flash, &self.journal, Area::Flash, moment)?,
            journal,
            calls: CallCounter::new(alloc, &[])?,
            writes: Written { disk: 0, flash: 0 },
        })
    }

    fn read_area(&mut self, area: Area, lba: u64, out: &mut [u8]) -> Result<(), Failed>
        requires { IsRange (view_of self.old) area lba (length out.old) }
        ensures listed { IsErr result ↔ IsListed self.old.calls }
        ensures counted { self.new ≡ counted self.old (is_err result) }
        ensures cause { HasCause self.old.calls.faults self.new.calls.faults result }
        ensures bytes { OnOk result
            (out.new ≡ window ((view_of self.old).reads area) (512 * lba) (length out.old)) }
    {
        self.calls.next()?;
        let at = 512 * lba as usize;
        let first = of_area(&self.disk, &self.flash, area);
        read_back(first, &self.journal, area, at, out);
        Ok(())
    }

    fn write_area(&mut self, area: Area, lba: u64, bytes: &[u8]) -> Result<(), Failed>
        requires { IsRange (view_of self.old) area lba (length bytes.now) }
        ensures listed { IsListed self.old.calls → IsErr result }
        ensures counted { self.new.calls ≡ after_call self.old.calls (is_err result) }
        ensures cause { HasCause self.old.calls.faults self.new.calls.faults result }
        ensures written { OnOk result (self.new ≡ written self.old area lba bytes.now) }
        ensures failed { OnErr result
            (FailsWrite self.old self.new area lba (length bytes.now / 512)) }
    {
        self.writes = self.writes.and(area, bytes.len() as u64 / 512);
        if let Err(failed) = self.calls.next() {
            let step = Step::FailedWrite {
                area,
                lba,
                sectors: bytes.len() as u64 / 512,
            };
            let number = self.calls.made();
            let _unnoted = note(&mut self.journal, Noted { number, step });
            return Err(failed);
        }
        let number = self.calls.made();
        let Ok(noted) = Noted::write(self.alloc, number, area, lba, bytes) else {
            self.calls.count_fault();
            return Err(Failed);
        };
        match note(&mut self.journal, noted) {
            Ok(()) => Ok(()),
            Err(_) => {
                self.calls.count_fault();
                Err(Failed)
            }
        }
    }

    fn sync_area(&mut self, area: Area) -> Result<(), Failed>
        ensures listed { IsListed self.old.calls → IsErr result }
        ensures counted { self.new.calls ≡ after_call self.old.calls (is_err result) }
        ensures cause { HasCause self.old.calls.faults self.new.calls.faults result }
        ensures synced { OnOk result (self.new ≡ synced self.old area) }
        ensures failed { OnErr result (self.new ≡ counted self.old true) }
    {
        self.calls.next()?;
        let number = self.calls.made();
        let step = Step::Sync { area };
        match note(&mut self.journal, Noted { number, step }) {
            Ok(()) => Ok(()),
            Err(_) => {
                self.calls.count_fault();
                Err(Failed)
            }
        }
    }
}

impl Plant for SimPlant {
    ghost use Rattle.bd_sim.specs.View.{view_of, view_honest};

    ghost view = { view_of };

    ghost honest = { view_honest };

    fn sectors(&self, area: Area) -> u64
        ensures { result ≡ (view_of self.now).size area }
    {
        let bytes = of_area(&self.disk, &self.flash, area);
        (bytes.len() as u64 / 512).min(1 << 40)
    }

    /// Fails only where its number is listed.
    fn read(&mut self, area: Area, lba: u64, out: &mut [u8]) -> Result<(), Failed>
        requires { IsRange (view_of self.old) area lba (length out.old) }
        ensures bytes { (view_of self.old).tells → OnOk result
            (out.new ≡ window ((view_of self.old).reads area) (512 * lba) (length out.old)) }
        ensures state { (view_of self.old).tells → OnlyReads (view_of self.old) (view_of self.new) }
        ensures time { Passes (view_of self.old) (view_of self.new) }
        ensures between { (view_of self.old).tells
            → ReadsBetween result (view_of self.old) (view_of self.new) }
        ensures cause { HasCause (view_of self.old).faults (view_of self.new).faults result }
        ensures listed { IsErr result ↔ IsListed self.old.calls }
        ensures counted { self.new ≡ counted self.old (is_err result) }
    {
        self.read_area(area, lba, out)
    }

    /// A write that fails leaves the bytes as they were. It fails also for want of memory.
    fn write(&mut self, area: Area, lba: u64, bytes: &[u8]) -> Result<(), Failed>
        requires { IsRange (view_of self.old) area lba (length bytes.now) }
        ensures bytes { (view_of self.old).tells → OnOk result
            (window ((view_of self.new).reads area) (512 * lba) (length bytes.now) ≡ bytes.now) }
        ensures marked { (view_of self.old).tells → OnOk result
            (AreUnsynced (view_of self.new) area lba (length bytes.now / 512)) }
        ensures state { (view_of self.old).tells
            → WritesTo area lba (length bytes.now / 512) (view_of self.old) (view_of self.new) }
        ensures time { Passes (view_of self.old) (view_of self.new) }
        ensures between { (view_of self.old).tells
            → ReadsBetween result (view_of self.old) (view_of self.new) }
        ensures cause { HasCause (view_of self.old).faults (view_of self.new).faults result }
        ensures listed { IsListed self.old.calls → IsErr result }
        ensures counted { self.new.calls ≡ after_call self.old.calls (is_err result) }
        ensures written { OnOk result (self.new ≡ written self.old area lba bytes.now) }
        ensures failed { OnErr result
            (FailsWrite self.old self.new area lba (length bytes.now / 512)) }
    {
        self.write_area(area, lba, bytes)
    }

    /// Fails also for want of memory.
    fn sync(&mut self, area: Area) -> Result<(), Failed>
        ensures durable { (view_of self.old).tells → OnOk result (IsSynced (view_of self.new) area) }
        ensures state { (view_of self.old).tells
            → Syncs area (view_of self.old) (view_of self.new) }
        ensures kept { (view_of self.old).tells
            → OnErr result (KeepsUnsynced (view_of self.old) (view_of self.new)) }
        ensures time { Passes (view_of self.old) (view_of self.new) }
        ensures between { (view_of self.old).tells
            → ReadsBetween result (view_of self.old) (view_of self.new) }
        ensures cause { HasCause (view_of self.old).faults (view_of self.new).faults result }
        ensures listed { IsListed self.old.calls → IsErr result }
        ensures counted { self.new.calls ≡ after_call self.old.calls (is_err result) }
        ensures synced { OnOk result (self.new ≡ synced self.old area) }
        ensures failed { OnErr result (self.new ≡ counted self.old true) }
    {
        self.sync_area(area)
    }
}
