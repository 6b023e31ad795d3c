//! Hosts, by what is to be done to reach them.

ghost use Rattle.std.specs.Prelude.{◌≡◌, IfOk};
ghost use Rattle.std.specs.Option.{option_and_then};
ghost use Rattle.find_fetch.specs.Aim.{is_v4, named_spot, spot_of};

use crate::request::Spot;
use bd_dev::{Bytes, Memory};
use host_name::{is_host_name, without_last_dot};
use std::alloc::Global;
use std::net::Ipv4Addr;
use url::{Host, Url};

/// Whether the text is an IPv4 address.
fn is_v4(text: &[u8]) -> bool
    ensures { result ≡ is_v4 text.now }
{
    Ipv4Addr::parse_ascii(text).is_ok()
}

/// The spot of a host that is no address by its form, if it has one.
fn named_spot(alloc: Global, text: &[u8]) -> Result<Option<Spot>, Memory>
    ensures { IfOk result (λ spot. spot ≡ named_spot text.now) }
{
    if is_v4(text) {
        return Ok(Some(Spot::At(Bytes::from_slice(alloc, text)?)));
    }
    let name = without_last_dot(text);
    if is_host_name(name) {
        return Ok(Some(Spot::Called(Bytes::from_slice(alloc, name)?)));
    }
    Ok(None)
}

/// The spot of the URL's host, if it has a host that is an address or the name of a host.
pub(crate) fn spot_of(alloc: Global, url: &Url) -> Result<Option<Spot>, Memory>
    ensures { IfOk result (λ spot. spot ≡ option_and_then spot_of url.now.host) }
{
    let Some(text) = url.host_str() else {
        return Ok(None);
    };
    match url.host() {
        Some(Host::Domain(_)) => named_spot(alloc, text.as_bytes()),
        Some(_) => Ok(Some(Spot::At(Bytes::from_slice(alloc, text.as_bytes())?))),
        None => Ok(None),
    }
}
