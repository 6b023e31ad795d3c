//! The candidates on local media.

ghost use Rattle.std.specs.Prelude.{◌≡◌, ◌≤◌, ◌*◌, true, length, map, fold, IfOk, OnOk};
ghost use Rattle.std.specs.List.{list_all};
ghost use Rattle.tlvinfo.specs.IdentityView.{board_of};
ghost use Rattle.url_waterfall.specs.Candidates.{is_file, local_file, files_named, local_files};
ghost use Rattle.url_waterfall.specs.Firsts.{firsts, with_new, IsIndex, KeepsFirsts};

use crate::candidate::Candidate;
use crate::listing::Listing;
use crate::naming::names;
use bd_dev::{Bytes, Memory, Names};
use bd_mode::Mode;
use std::alloc::Global;
use tlvinfo::Identity;

/// The volume of the files that the network serves, which is no local medium.
const NETWORK: &[u8] = b"net";

/// Puts each name in the volume at the end, unless its text is shown already.
fn push_volume(
    alloc: Global,
    list: &mut Listing,
    names: &[Bytes],
    volume: &[u8],
) -> Result<(), Memory>
    requires { IsIndex list.old.shown list.old.items.items }
    ensures pushed { OnOk result (list.new.items.items
        ≡ fold with_new list.old.items.items (map (local_file volume.now) names.now)) }
    ensures index { OnOk result (IsIndex list.new.shown list.new.items.items) }
{
    for name in names {
        list.push(alloc, Candidate::local(alloc, volume, name.as_slice())?)?;
    }
    Ok(())
}

/// Each of the names in each volume but the network's, each text once.
fn list_files(alloc: Global, names: &[Bytes], volumes: &[Bytes]) -> Result<Vec<Candidate>, Memory>
    ensures { IfOk result (λ list. list.items ≡ firsts (files_named names.now volumes.now)) }
{
    let mut list = Listing::new(alloc);
    for volume in volumes {
        if volume.as_slice() != NETWORK {
            push_volume(alloc, &mut list, names, volume.as_slice())?;
        }
    }
    Ok(list.items)
}

/// The candidates on local media, in the order in which they are tried: for each volume in the order given, but for
/// `net`, each of the [`names`] without silicon. Each text is shown once, where it comes first. So none is fetched over
/// the network, and there are at most ten for each volume.
///
/// Answers `Memory` where there is no memory for them.
///
/// Source: ONIE design specification, image discovery. That `net` is no local medium is this project's.
pub fn candidates(
    alloc: Global,
    identity: &Identity,
    mode: Mode,
    volumes: &Names,
) -> Result<Vec<Candidate>, Memory>
    ensures listed { IfOk result (λ list.
        list.items ≡ firsts (local_files (board_of identity.now) mode volumes.now)) }
    // No text twice, the first candidate of each text, and the order kept.
    ensures law { IfOk result (λ list.
        KeepsFirsts (local_files (board_of identity.now) mode volumes.now) list.items) }
    ensures nearby { IfOk result (λ list. list_all is_file list.items ≡ true) }
    ensures few { IfOk result (λ list. length list.items ≤ 10 * length volumes.now) }
{
    let names = names(alloc, identity, None, mode)?;
    let list = list_files(alloc, names.as_slice(), volumes.as_slice())?;
    Ok(list)
}
