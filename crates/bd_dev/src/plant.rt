//! A plant: the disk and the flash of a switch, in sectors of 512 bytes, behind a write-back cache.

ghost use Rattle.std.specs.Prelude.{◌≡◌, ◌*◌, ◌/◌, length, OnErr, OnOk};
ghost use Rattle.bd_dev.specs.Content.{window};
ghost use Rattle.bd_dev.specs.Faults.{HasCause};
ghost use Rattle.bd_dev.specs.Plant.{View, AreUnsynced, IsHonest, IsRange, IsSynced, KeepsUnsynced, OnlyReads, Passes, ReadsBetween, Syncs, WritesTo};

use crate::faults::Failed;

/// An area of a plant.
#[derive(Clone, Copy, Debug, PartialEq, Eq)]
pub enum Area {
    /// The disk, which holds the partitions.
    Disk,
    /// The flash, which holds the boot variables.
    Flash,
}

/// Two areas of sectors of 512 bytes, each with an address from 0. What was written since an area's
/// last successful sync may be torn by a power cut: each such sector holds any bytes then. While a
/// write runs, so may each sector of its range. All other sectors stand as they read.
pub trait Plant {
    /// What the plant is to those who use it.
    ghost view: { Self → View };

    /// The number of an area's sectors, at most 2^40. It never changes.
    fn sectors(&self, area: Area) -> u64
        ensures { result ≡ (view self.now).size area };

    /// Fills `out` with whole sectors from the address `lba` on, or fails and counts it. What the
    /// plant reads and which sectors are unsynced is left as it was, by a read that fails too.
    fn read(&mut self, area: Area, lba: u64, out: &mut [u8]) -> Result<(), Failed>
        requires { IsRange (view self.old) area lba (length out.old) }
        ensures bytes { (view self.old).tells → OnOk result
            (out.new ≡ window ((view self.old).reads area) (512 * lba) (length out.old)) }
        ensures state { (view self.old).tells → OnlyReads (view self.old) (view self.new) }
        ensures time { Passes (view self.old) (view self.new) }
        ensures between { (view self.old).tells
            → ReadsBetween result (view self.old) (view self.new) }
        ensures cause { HasCause (view self.old).faults (view self.new).faults result };

    /// Writes whole sectors from the address `lba` on, which are unsynced then. Or fails and counts
    /// it: then each sector of the range reads as any bytes. Whatever it answers, all other sectors
    /// are left as they were.
    fn write(&mut self, area: Area, lba: u64, bytes: &[u8]) -> Result<(), Failed>
        requires { IsRange (view self.old) area lba (length bytes.now) }
        ensures bytes { (view self.old).tells → OnOk result
            (window ((view self.new).reads area) (512 * lba) (length bytes.now) ≡ bytes.now) }
        ensures marked { (view self.old).tells → OnOk result
            (AreUnsynced (view self.new) area lba (length bytes.now / 512)) }
        ensures state { (view self.old).tells
            → WritesTo area lba (length bytes.now / 512) (view self.old) (view self.new) }
        ensures time { Passes (view self.old) (view self.new) }
        ensures between { (view self.old).tells
            → ReadsBetween result (view self.old) (view self.new) }
        ensures cause { HasCause (view self.old).faults (view self.new).faults result };

    /// Waits until all that was written to an area is durable: nothing of it is unsynced then. Or
    /// fails and counts it, and its unsynced sectors stay so. What the plant reads and the other
    /// area are left as they were.
    fn sync(&mut self, area: Area) -> Result<(), Failed>
        ensures durable { (view self.old).tells → OnOk result (IsSynced (view self.new) area) }
        ensures state { (view self.old).tells
            → Syncs area (view self.old) (view self.new) }
        ensures kept { (view self.old).tells → OnErr result (KeepsUnsynced (view self.old) (view self.new)) }
        ensures time { Passes (view self.old) (view self.new) }
        ensures between { (view self.old).tells
            → ReadsBetween result (view self.old) (view self.new) }
        ensures cause { HasCause (view self.old).faults (view self.new).faults result };

    /// What holds of each plant.
    ghost honest: { (plant : Self) → IsHonest (view plant) };
}
