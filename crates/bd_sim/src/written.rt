//! Counts of sectors that were written.

ghost use Rattle.std.specs.Prelude.{◌≡◌};
ghost use Rattle.bd_sim.specs.Journal.{of_area};
ghost use Rattle.bd_sim.specs.View.{after_writing};

use bd_dev::Area;

/// How many sectors of each area writes were given, up to the greatest count.
#[derive(Clone, Copy, Debug)]
pub(crate) struct Written {
    pub(crate) disk: u64,
    pub(crate) flash: u64,
}

impl Written {
    /// The count of an area.
    pub(crate) fn of(self, area: Area) -> u64
        ensures { result ≡ of_area self.disk self.flash area }
    {
        match area {
            Area::Disk => self.disk,
            Area::Flash => self.flash,
        }
    }

    /// The counts after these sectors more.
    pub(crate) fn and(self, area: Area, sectors: u64) -> Written
        ensures { result ≡ after_writing self area sectors }
    {
        match area {
            Area::Disk => Written {
                disk: self.disk.saturating_add(sectors),
                flash: self.flash,
            },
            Area::Flash => Written {
                disk: self.disk,
                flash: self.flash.saturating_add(sectors),
            },
        }
    }
}
