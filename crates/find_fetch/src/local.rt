//! Files of local media.

ghost use Rattle.std.specs.Prelude.{◌≡◌, ◌≢◌, Err, length, IfOk};
ghost use Rattle.std.specs.Option.{ForSome};
ghost use Rattle.bd_dev.specs.Faults.{HasCauseOr};
ghost use Rattle.bd_dev.specs.Volumes.{bytes_of, file_of};
ghost use Rattle.find_fetch.specs.Local.{IsOfLength, IsWithinLimit, local_of};

use crate::fetched::{FetchFault, Fetched, Miss};
use bd_dev::{DevFault, Media, read_file};
use std::alloc::Global;

/// The longest installer, in bytes.
const LONGEST: u64 = 33_554_432;

/// Reads a file of the length that was found.
fn read_found<M: Media>(
    alloc: Global,
    media: &mut M,
    volume: &[u8],
    name: &[u8],
    want: u64,
) -> Result<Fetched, FetchFault>
    ensures ended { IfOk result (IsOfLength want) }
    ensures whole { IfOk result (λ found. ForSome (M.content media.old) (λ volumes.
        length (bytes_of volumes volume.now name.now) ≡ want
        → found ≡ Fetched.Body (bytes_of volumes volume.now name.now))) }
    ensures kept { M.content media.new ≡ M.content media.old }
    ensures cause { HasCauseOr FetchFault.Media (M.faults media.old) (M.faults media.new) result }
    ensures no_net { result ≢ Err FetchFault.Net }
    ensures no_sink { result ≢ Err FetchFault.Sink }
{
    let body = match read_file(alloc, media, volume, name, want) {
        Ok(body) => body,
        Err(DevFault::Failed) => return Err(FetchFault::Media),
        Err(DevFault::Memory) => return Err(FetchFault::Memory),
    };
    let got = body.as_slice().len() as u64;
    if got < want {
        return Ok(Fetched::Miss(Miss::Short { want, got }));
    }
    Ok(Fetched::Body(body))
}

/// Reads the file of the name in the volume.
pub(crate) fn read_local<M: Media>(
    alloc: Global,
    media: &mut M,
    volume: &[u8],
    name: &[u8],
) -> Result<Fetched, FetchFault>
    ensures told { IfOk result (λ found. ForSome (M.content media.old) (λ volumes.
        found ≡ local_of (file_of volumes volume.now name.now))) }
    ensures limits { IfOk result IsWithinLimit }
    ensures kept { M.content media.new ≡ M.content media.old }
    ensures cause { HasCauseOr FetchFault.Media (M.faults media.old) (M.faults media.new) result }
    ensures no_net { result ≢ Err FetchFault.Net }
    ensures no_sink { result ≢ Err FetchFault.Sink }
{
    let want = match media.find(volume, name) {
        Ok(Some(want)) => want,
        Ok(None) => return Ok(Fetched::Miss(Miss::NoFile)),
        Err(_) => return Err(FetchFault::Media),
    };
    if want > LONGEST {
        return Ok(Fetched::Miss(Miss::TooLarge));
    }
    let fetched = read_found(alloc, media, volume, name, want)?;
    Ok(fetched)
}
