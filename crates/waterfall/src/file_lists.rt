//! Files of every name an installer may have, on media and servers.

ghost use Rattle.std.specs.Prelude.{◌≡◌, ◌≤◌, ◌*◌, fold, length, map, OnOk};
ghost use Rattle.std.specs.List.{flat_map};
ghost use Rattle.dhcp_lease.specs.LeaseView.{terms_of};
ghost use Rattle.waterfall.specs.Firsts.{with_new};
ghost use Rattle.waterfall.specs.Leases.{given, in_folder, on_server, on_tftp, tftps_of, webs_of};
ghost use Rattle.waterfall.specs.Places.{local_file};
ghost use Rattle.waterfall.specs.Whole.{files_named};

use crate::candidate::Candidate;
use crate::folders::fronts;
use crate::listing::Listing;
use crate::urls::{is_given, tftp_server};
use bd_dev::{Bytes, Memory};
use bd_text::{Mac, V4};
use dhcp_lease::Lease;
use std::alloc::Global;

/// The volume of the files that the network serves, which is no local medium.
const NETWORK: &[u8] = b"net";

/// Puts each name in the volume at the end.
fn push_volume(
    alloc: Global,
    list: &mut Listing,
    names: &[Bytes],
    volume: &[u8],
) -> Result<(), Memory>
    ensures { OnOk result (list.new ≡ fold with_new list.old (map (local_file volume.now) names.now)) }
{
    for name in names {
        list.push(Candidate::local(alloc, volume, name.as_slice())?)?;
    }
    Ok(())
}

/// Puts each name in each volume but the network's at the end.
pub(crate) fn push_volumes(
    alloc: Global,
    list: &mut Listing,
    names: &[Bytes],
    volumes: &[Bytes],
) -> Result<(), Memory>
    ensures { OnOk result (list.new ≡ fold with_new list.old (files_named names.now volumes.now)) }
{
    for volume in volumes {
        if volume.as_slice() != NETWORK {
            push_volume(alloc, list, names, volume.as_slice())?;
        }
    }
    Ok(())
}

/// Puts each name on the web server at the end.
fn push_server(alloc: Global, list: &mut Listing, names: &[Bytes], server: V4) -> Result<(), Memory>
    ensures { OnOk result (list.new ≡ fold with_new list.old (on_server names.now server)) }
{
    for name in names {
        list.push(Candidate::web(alloc, server, name.as_slice())?)?;
    }
    Ok(())
}

/// Puts each name on each of the web servers at the end.
fn push_servers(
    alloc: Global,
    list: &mut Listing,
    names: &[Bytes],
    servers: &[V4],
) -> Result<(), Memory>
    ensures { OnOk result (list.new ≡ fold with_new list.old (flat_map (on_server names.now) servers.now)) }
{
    for server in servers {
        push_server(alloc, list, names, *server)?;
    }
    Ok(())
}

/// Puts each name on the web server at the end, unless it is 0.0.0.0.
fn push_given(alloc: Global, list: &mut Listing, names: &[Bytes], server: V4) -> Result<(), Memory>
    ensures { OnOk result (list.new ≡ fold with_new list.old (flat_map (on_server names.now) (given server))) }
{
    if is_given(server) {
        push_server(alloc, list, names, server)?;
    }
    Ok(())
}

/// Puts each name on each web server of a lease at the end.
pub(crate) fn push_webs(
    alloc: Global,
    list: &mut Listing,
    names: &[Bytes],
    lease: &Lease,
) -> Result<(), Memory>
    ensures pushed { OnOk result (list.new ≡ fold with_new list.old (webs_of names.now (terms_of lease.now))) }
    ensures few { OnOk result (length (webs_of names.now (terms_of lease.now)) ≤ 18 * length names.now) }
{
    push_servers(alloc, list, names, lease.www.as_slice())?;
    push_servers(alloc, list, names, lease.tftps.as_slice())?;
    push_given(alloc, list, names, lease.siaddr)?;
    push_server(alloc, list, names, lease.server)?;
    Ok(())
}

/// Puts each name behind the front on the TFTP server at the end.
fn push_folder(
    alloc: Global,
    list: &mut Listing,
    names: &[Bytes],
    server: &[u8],
    front: &[u8],
) -> Result<(), Memory>
    ensures { OnOk result (list.new ≡ fold with_new list.old (in_folder names.now server.now front.now)) }
{
    for name in names {
        let mut path = Bytes::from_slice(alloc, front)?;
        path.push_slice(name.as_slice())?;
        list.push(Candidate::tftp(alloc, server, path.as_slice())?)?;
    }
    Ok(())
}

/// Puts each name behind each front on the TFTP server at the end.
fn push_folders(
    alloc: Global,
    list: &mut Listing,
    names: &[Bytes],
    server: &[u8],
    fronts: &[Bytes],
) -> Result<(), Memory>
    ensures { OnOk result (list.new ≡ fold with_new list.old (flat_map (in_folder names.now server.now) fronts.now)) }
{
    for front in fronts {
        push_folder(alloc, list, names, server, front.as_slice())?;
    }
    Ok(())
}

/// Puts each name in each folder of the TFTP server of a lease at the end, where there is one.
pub(crate) fn push_tftps(
    alloc: Global,
    list: &mut Listing,
    names: &[Bytes],
    mac: Mac,
    lease: &Lease,
) -> Result<(), Memory>
    ensures { OnOk result (list.new ≡ fold with_new list.old (tftps_of names.now mac (terms_of lease.now))) }
{
    if let Some(server) = tftp_server(alloc, lease)? {
        let fronts = fronts(alloc, mac, lease.address)?;
        push_folders(alloc, list, names, server.as_slice(), fronts.as_slice())?;
    }
    Ok(())
}
