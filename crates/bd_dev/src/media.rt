//! Removable media: volumes of named files, which are only read.

ghost use Rattle.std.specs.Prelude.{◌≡◌, ◌≤◌, ℕ, List, Option, length, IfOk};
ghost use Rattle.std.specs.Option.{ForSome};
ghost use Rattle.bd_dev.specs.Faults.{HasCause, HasCauseOr};
ghost use Rattle.bd_dev.specs.Volumes.{Volume, ListsVolumes, FindsFile, GivesBytes, bytes_of};

use crate::bytes::{Bytes, Names};
use crate::faults::{DevFault, Failed};
use std::alloc::Global;

/// What is read of a file at a time, in bytes.
const PIECE: usize = 16_384;

/// Volumes of named files. No call changes what they hold.
pub trait Media {
    /// The volumes that they hold, where they tell them.
    ghost content: { Self → Option (List Volume) };

    /// The count of their faults.
    ghost faults: { Self → ℕ };

    /// The names of the volumes, in order. Answers `Memory` where there is no memory for them, or
    /// fails and counts it.
    fn volumes(&mut self, alloc: Global) -> Result<Names, DevFault>
        ensures named { IfOk result (ListsVolumes (content self.old)) }
        ensures kept { content self.new ≡ content self.old }
        ensures cause { HasCauseOr DevFault.Failed (faults self.old) (faults self.new) result };

    /// The length of a file in bytes, or None where there is no such file, or fails and counts it.
    fn find(&mut self, volume: &[u8], name: &[u8]) -> Result<Option<u64>, Failed>
        ensures found { IfOk result (FindsFile (content self.old) volume.now name.now) }
        ensures kept { content self.new ≡ content self.old }
        ensures cause { HasCause (faults self.old) (faults self.new) result };

    /// Puts bytes of a file, from the place `at` on, at the front of `out` and gives how many: 0
    /// for a nonempty `out` only where the file ends at or before `at`. A file that isn't there has
    /// no bytes, and that is no failure. Or fails and counts it.
    fn read(&mut self, volume: &[u8], name: &[u8], at: u64, out: &mut [u8]) -> Result<usize, Failed>
        ensures given { IfOk result
            (λ n. GivesBytes (content self.old) volume.now name.now at n out.new) }
        ensures kept { content self.new ≡ content self.old }
        ensures cause { HasCause (faults self.old) (faults self.new) result };
}

/// Reads a file of this length in bytes, which was found before, or to its end where that comes first. Answers `Failed`
/// where the media fail, and `Memory` where there is no memory for the bytes.
pub fn read_file<M: Media>(
    alloc: Global,
    media: &mut M,
    volume: &[u8],
    name: &[u8],
    size: u64,
) -> Result<Bytes, DevFault>
    ensures within { IfOk result (λ body. length body ≤ size) }
    ensures whole { IfOk result (λ body. ForSome (M.content media.old) (λ volumes.
        length (bytes_of volumes volume.now name.now) ≡ size → body ≡ bytes_of volumes volume.now name.now)) }
    ensures kept { M.content media.new ≡ M.content media.old }
    ensures cause { HasCauseOr DevFault.Failed (M.faults media.old) (M.faults media.new) result }
{
    let mut piece = [0u8; PIECE];
    let mut body = Bytes::from_slice(alloc, b"")?;
    while (body.as_slice().len() as u64) < size {
        let at = body.as_slice().len() as u64;
        let count = media.read(volume, name, at, &mut piece)?;
        if count == 0 {
            return Ok(body);
        }
        let count = (count as u64).min(size - at) as usize;
        body.push_slice(&piece[..count])?;
    }
    Ok(body)
}
