//! Media in memory.

ghost use Rattle.std.specs.Prelude.{◌≡◌, ◌↔◌, ◌∷◌, [], Some, Err, IfOk, OnOk, OnErr, IsErr, is_err};
ghost use Rattle.bd_dev.specs.Calls.{IsListed, after_call, no_calls};
ghost use Rattle.bd_dev.specs.Faults.{HasCause, HasCauseOr, is_failed};
ghost use Rattle.bd_dev.specs.Volumes.{AddsFile, FindsFile, GivesBytes, ListsVolumes};

use crate::bytes::{Bytes, Memory, Names};
use crate::calls::CallCounter;
use crate::faults::{DevFault, Failed};
use crate::media::Media;
use crate::mem_volumes::{
    MemFile, MemVolume, bytes_named, copy_piece, file_named, names_of, place_of_volume,
};
use std::alloc::Global;
use std::marker::Model;

/// Media that hold in memory the files that were added to them.
#[derive(Drop)]
pub struct MemMedia {
    volumes: Vec<MemVolume>,
    calls: CallCounter,
    alloc: Global,
}

impl Model for MemMedia {
    ghost use Rattle.bd_dev.specs.Volumes.{MediaInMemory};

    ghost Value = { MediaInMemory };

    ghost view = { λ m. record { volumes = m.volumes.items; calls = m.calls } };
}

impl MemMedia {
    /// Media without volumes, whose calls with the numbers in `fails`, from 1, are to fail. Or
    /// `Memory`.
    pub fn new(alloc: Global, fails: &[u64]) -> Result<MemMedia, Memory>
        ensures { IfOk result (λ m. m ≡ record { volumes = []; calls = no_calls fails.now }) }
    {
        Ok(MemMedia {
            volumes: Vec::new(alloc),
            calls: CallCounter::new(alloc, fails)?,
            alloc,
        })
    }

    /// Gives a volume this file, in place of the file of that name. A volume that is new comes
    /// last. Or answers `Memory` and changes nothing. This is no device call.
    pub fn add(&mut self, volume: &[u8], name: &[u8], bytes: &[u8]) -> Result<(), Memory>
        ensures added { OnOk result
            (AddsFile self.old.volumes self.new.volumes volume.now name.now bytes.now) }
        ensures uncounted { OnOk result (self.new.calls ≡ self.old.calls) }
        ensures unchanged { OnErr result (self.new ≡ self.old) }
    {
        let file = MemFile::new(self.alloc, name, bytes)?;
        match place_of_volume(&self.volumes, volume) {
            Some(place) => self.volumes[place].put(file)?,
            None => self
                .volumes
                .push(MemVolume::new(self.alloc, volume, file)?)?,
        }
        Ok(())
    }
}

impl Media for MemMedia {
    ghost content = { λ m. Some m.volumes };

    ghost faults = { λ m. m.calls.faults };

    fn volumes(&mut self, alloc: Global) -> Result<Names, DevFault>
        ensures named { IfOk result (ListsVolumes (Some self.old.volumes)) }
        ensures kept { Some self.new.volumes ≡ Some self.old.volumes }
        ensures cause { HasCauseOr DevFault.Failed
            self.old.calls.faults self.new.calls.faults result }
        ensures listed { (result ≡ Err DevFault.Failed) ↔ IsListed self.old.calls }
        ensures counted { self.new.calls ≡ after_call self.old.calls (is_failed result) }
    {
        self.calls.next()?;
        Ok(names_of(alloc, &self.volumes)?)
    }

    fn find(&mut self, volume: &[u8], name: &[u8]) -> Result<Option<u64>, Failed>
        ensures found { IfOk result (FindsFile (Some self.old.volumes) volume.now name.now) }
        ensures kept { Some self.new.volumes ≡ Some self.old.volumes }
        ensures cause { HasCause self.old.calls.faults self.new.calls.faults result }
        ensures listed { IsErr result ↔ IsListed self.old.calls }
        ensures counted { self.new.calls ≡ after_call self.old.calls (is_err result) }
    {
        self.calls.next()?;
        match file_named(&self.volumes, volume, name) {
            None => Ok(None),
            Some(bytes) => Ok(Some(bytes.as_slice().len() as u64)),
        }
    }

    fn read(&mut self, volume: &[u8], name: &[u8], at: u64, out: &mut [u8]) -> Result<usize, Failed>
        ensures given { IfOk result
            (λ n. GivesBytes (Some self.old.volumes) volume.now name.now at n out.new) }
        ensures kept { Some self.new.volumes ≡ Some self.old.volumes }
        ensures cause { HasCause self.old.calls.faults self.new.calls.faults result }
        ensures listed { IsErr result ↔ IsListed self.old.calls }
        ensures counted { self.new.calls ≡ after_call self.old.calls (is_err result) }
    {
        self.calls.next()?;
        Ok(copy_piece(bytes_named(&self.volumes, volume, name), at, out))
    }
}
