//! The whole list.

ghost use Rattle.std.specs.Prelude.{◌≡◌, ◌≤◌, ◌+◌, ◌*◌, count_by, fold, length, IfOk, OnOk};
ghost use Rattle.std.specs.List.{flat_map};
ghost use Rattle.tlvinfo.specs.IdentityView.{board_of};
ghost use Rattle.waterfall.specs.Firsts.{KeepsFirsts, firsts, with_new};
ghost use Rattle.waterfall.specs.Whole.{is_remote, port_tftps, port_urls, port_webs, waterfall};

use crate::candidate::Candidate;
use crate::file_lists::{push_tftps, push_volumes, push_webs};
use crate::listing::Listing;
use crate::port::{Fixed, Port};
use crate::urls::{borrowed, push_url, push_urls};
use bd_dev::{Bytes, Memory, Names};
use bd_mode::Mode;
use std::alloc::Global;
use tlvinfo::Identity;
use url_waterfall::names;

/// Puts the URLs of all leases at the end.
fn push_all_urls(
    alloc: Global,
    list: &mut Listing,
    mode: Mode,
    ports: &[Port],
) -> Result<(), Memory>
    ensures { OnOk result (list.new ≡ fold with_new list.old (flat_map (port_urls mode) ports.now)) }
{
    for port in ports {
        if let Some(lease) = &port.lease {
            push_urls(alloc, list, mode, lease)?;
        }
    }
    Ok(())
}

/// Puts the files of the web servers of all leases at the end.
fn push_all_webs(
    alloc: Global,
    list: &mut Listing,
    names: &[Bytes],
    ports: &[Port],
) -> Result<(), Memory>
    requires { length names.now ≤ 12 }
    ensures pushed { OnOk result (list.new ≡ fold with_new list.old (flat_map (port_webs names.now) ports.now)) }
    ensures few { OnOk result (length (flat_map (port_webs names.now) ports.now) ≤ 216 * length ports.now) }
{
    for port in ports {
        if let Some(lease) = &port.lease {
            push_webs(alloc, list, names, lease)?;
        }
    }
    Ok(())
}

/// Puts the files of the TFTP servers of all leases at the end.
fn push_all_tftps(
    alloc: Global,
    list: &mut Listing,
    names: &[Bytes],
    ports: &[Port],
) -> Result<(), Memory>
    ensures { OnOk result (list.new ≡ fold with_new list.old (flat_map (port_tftps names.now) ports.now)) }
{
    for port in ports {
        if let Some(lease) = &port.lease {
            push_tftps(alloc, list, names, port.mac, lease)?;
        }
    }
    Ok(())
}

/// The candidates, in the order in which they are tried:
///
/// 1. the fixed URL;
/// 2. for each volume in the order given, but for `net`, each of the [`names`];
/// 3. for each lease, in the order of the ports: ONIE's own URL in option 125, the installer's or in the modes `Update` and
///    `Embed` the updater's; option 114; and the boot file, as a URL where it contains `://`, else of the TFTP server;
/// 4. for each lease, for each server of options 72 and 150, the next server, where it isn't 0.0.0.0, and the lease's own
///    server, each name;
/// 5. for each lease with a TFTP server, each name in each folder: the interface's Ethernet address, the leased address in
///    eight digits, then one digit less each time, and the root.
///
/// The TFTP server is that of option 66 or of the field `sname`, else the first of option 150, else the next server. Each
/// text is shown once, where it comes first. Answers `Memory` where there is no memory for them.
///
/// Source: ONIE user guide, "Image Discovery". That `net` is no local medium, that option 114 is a URL, and the
/// forms of the shown texts are this project's.
pub fn candidates(
    alloc: Global,
    identity: &Identity,
    mode: Mode,
    fixed: &Fixed,
    volumes: &Names,
    ports: &[Port],
) -> Result<Vec<Candidate>, Memory>
    ensures listed { IfOk result (λ list.
        list.items ≡ firsts (waterfall (board_of identity.now) mode fixed.now volumes.now ports.now)) }
    // No text twice, the first candidate of each text, and the order kept.
    ensures law { IfOk result (λ list.
        KeepsFirsts (waterfall (board_of identity.now) mode fixed.now volumes.now ports.now) list.items) }
    // Those that are not on local media.
    ensures few { IfOk result (λ list. count_by is_remote list.items ≤ 1 + 339 * length ports.now) }
{
    let names = names(alloc, identity, borrowed(&fixed.silicon), mode)?;
    let names = names.as_slice();
    let mut list = Listing::new(alloc);
    push_url(alloc, &mut list, borrowed(&fixed.url))?;
    push_volumes(alloc, &mut list, names, volumes.as_slice())?;
    push_all_urls(alloc, &mut list, mode, ports)?;
    push_all_webs(alloc, &mut list, names, ports)?;
    push_all_tftps(alloc, &mut list, names, ports)?;
    Ok(list.into_items())
}
