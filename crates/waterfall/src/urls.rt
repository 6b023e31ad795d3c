//! The URLs of a lease.

ghost use Rattle.std.specs.Prelude.{◌≡◌, fold, IfOk, OnOk};
ghost use Rattle.std.specs.Option.{option_copied};
ghost use Rattle.dhcp_lease.specs.LeaseView.{terms_of};
ghost use Rattle.waterfall.specs.Firsts.{with_new};
ghost use Rattle.waterfall.specs.Leases.{at_maybe, boot_file, first_given, holds_mark, is_given, own_url, tftp_server, urls_of, without_slash};

use crate::candidate::Candidate;
use crate::listing::Listing;
use bd_dev::{Bytes, Memory};
use bd_mode::Mode;
use bd_text::V4;
use dhcp_lease::Lease;
use std::alloc::Global;

/// What marks a text as a URL.
const MARK: &[u8] = b"://";

/// Whether it is an address, and not the place of one.
pub(crate) fn is_given(address: V4) -> bool
    ensures { result ≡ is_given address }
{
    address.bytes.as_slice() != [0, 0, 0, 0].as_slice()
}

/// The text, if there is one.
pub(crate) fn borrowed(text: &Option<Bytes>) -> Option<&[u8]>
    ensures { option_copied result ≡ text.now }
{
    match text {
        Some(text) => Some(text.as_slice()),
        None => None,
    }
}

/// The first address of a lease's TFTP servers, else the next server of the boot.
fn tftp_address(lease: &Lease) -> Option<V4>
    ensures { result ≡ first_given lease.now.tftps.items lease.now.siaddr }
{
    match lease.tftps.as_slice().first() {
        Some(address) => Some(*address),
        None => {
            if is_given(lease.siaddr) {
                Some(lease.siaddr)
            } else {
                None
            }
        }
    }
}

/// The TFTP server of a lease: its name, else the first address, or none. Or answers `Memory`.
pub(crate) fn tftp_server(alloc: Global, lease: &Lease) -> Result<Option<Bytes>, Memory>
    ensures { IfOk result (λ server. server ≡ tftp_server (terms_of lease.now)) }
{
    if let Some(name) = &lease.tftp_name {
        return Ok(Some(Bytes::from_slice(alloc, name.as_slice())?));
    }
    match tftp_address(lease) {
        Some(address) => {
            let text = address.text();
            Ok(Some(Bytes::from_slice(alloc, text.as_str().as_bytes())?))
        }
        None => Ok(None),
    }
}

/// Whether the mark of a URL stands in the text.
fn holds_mark(text: &[u8]) -> bool
    ensures { result ≡ holds_mark text.now }
{
    let mut rest = text;
    while let [_, behind @ ..] = rest {
        if rest.starts_with(MARK) {
            return true;
        }
        rest = behind;
    }
    false
}

/// The text without the `/` at its front.
fn without_slash(text: &[u8]) -> &[u8]
    ensures { result.now ≡ without_slash text.now }
{
    match text {
        [b'/', rest @ ..] => rest,
        _ => text,
    }
}

/// Puts what is at a URL at the end, where there is one.
pub(crate) fn push_url(alloc: Global, list: &mut Listing, url: Option<&[u8]>) -> Result<(), Memory>
    ensures { OnOk result (list.new ≡ fold with_new list.old (at_maybe (option_copied url.entry))) }
{
    if let Some(url) = url {
        list.push(Candidate::at_url(alloc, url)?)?;
    }
    Ok(())
}

/// Puts the boot file of a lease at the end, where there is one.
fn push_boot_file(alloc: Global, list: &mut Listing, lease: &Lease) -> Result<(), Memory>
    ensures { OnOk result (list.new
        ≡ fold with_new list.old (boot_file lease.now.file (tftp_server (terms_of lease.now)))) }
{
    let Some(file) = &lease.file else {
        return Ok(());
    };
    let file = file.as_slice();
    if holds_mark(file) {
        list.push(Candidate::at_url(alloc, file)?)?;
        return Ok(());
    }
    if let Some(server) = tftp_server(alloc, lease)? {
        list.push(Candidate::tftp(alloc, server.as_slice(), without_slash(file))?)?;
    }
    Ok(())
}

/// ONIE's own URL for the mode.
fn own_url(mode: Mode, lease: &Lease) -> Option<&[u8]>
    ensures { option_copied result ≡ own_url mode (terms_of lease.now) }
{
    match mode {
        Mode::Install | Mode::Rescue | Mode::Uninstall => borrowed(&lease.onie_install),
        Mode::Update | Mode::Embed => borrowed(&lease.onie_update),
    }
}

/// Puts the URLs of a lease at the end.
pub(crate) fn push_urls(
    alloc: Global,
    list: &mut Listing,
    mode: Mode,
    lease: &Lease,
) -> Result<(), Memory>
    ensures { OnOk result (list.new ≡ fold with_new list.old (urls_of mode (terms_of lease.now))) }
{
    push_url(alloc, list, own_url(mode, lease))?;
    push_url(alloc, list, borrowed(&lease.url))?;
    push_boot_file(alloc, list, lease)?;
    Ok(())
}
