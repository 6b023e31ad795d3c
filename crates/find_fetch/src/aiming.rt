//! Where a request for a candidate goes.

ghost use Rattle.std.specs.Prelude.{◌≡◌, if◌then◌else◌, IfOk};
ghost use Rattle.std.specs.Option.{option_and_then, option_copied};
ghost use Rattle.find_fetch.specs.declared.request.Aim.{Aim};
ghost use Rattle.find_fetch.specs.Aim.{IsAskable, IsSpot, aim_of, aimed_by, asked_by, at_spot, is_unfit, spot_of, url_of};

use crate::fetched::Miss;
use crate::request::{Aim, Aimed, Way};
use crate::spots::spot_of;
use crate::urls::{is_path, path_of, read_url};
use bd_dev::{Bytes, Memory};
use std::alloc::Global;
use url::Url;
use url_waterfall::{Candidate, Place};

/// The port that TFTP servers listen on (RFC 1350, section 4).
const TFTP_PORT: u16 = 69;

/// Whether no request is made for the URL: it has a user name or a password, port 0, or no path that can be asked for.
fn is_unfit(url: &Url, path: &[u8]) -> bool
    ensures { result ≡ is_unfit url.now path.now }
{
    !url.username().is_empty()
        || url.password().is_some()
        || url.port() == Some(0)
        || !is_path(path)
}

/// What is to be done for a URL over TFTP, with what is asked for.
fn at_url(alloc: Global, url: &Url, path: Bytes) -> Result<Aimed, Memory>
    ensures { IfOk result (λ aimed. aimed ≡ (if is_unfit url.now path then Aimed.Refused Miss.BadUrl
        else at_spot url.now path (option_and_then spot_of url.now.host))) }
{
    if is_unfit(url, path.as_slice()) {
        return Ok(Aimed::Refused(Miss::BadUrl));
    }
    let Some(spot) = spot_of(alloc, url)? else {
        return Ok(Aimed::Refused(Miss::BadUrl));
    };
    Ok(Aimed::Aim(Aim {
        spot,
        port: url.port().unwrap_or(TFTP_PORT),
        way: Way::Tftp { path },
    }))
}

/// What is to be done for a text, with what is asked for where the text does not say it.
fn at_text(alloc: Global, text: &[u8], own: Option<&[u8]>) -> Result<Aimed, Memory>
    ensures aimed { IfOk result (λ aimed. aimed ≡ aimed_by (url_of text.now) (asked_by (option_copied own.entry))) }
    ensures spot { IfOk result (λ aimed. (request : Aim) → aimed ≡ Aimed.Aim request → IsSpot request.spot) }
{
    let Some(url) = read_url(alloc, text)? else {
        return Ok(Aimed::Refused(Miss::BadUrl));
    };
    if url.scheme() != "tftp" {
        return Ok(Aimed::Refused(Miss::Scheme));
    }
    let path = match own {
        Some(path) => Bytes::from_slice(alloc, path)?,
        None => path_of(alloc, &url)?,
    };
    at_url(alloc, &url, path)
}

/// What is to be done for a candidate. `Local` exactly for a file of a local medium.
///
/// Any other candidate is read as a URL by the text that is shown for it. It is refused as `BadUrl` where that is none,
/// then as `Scheme` where its scheme is not `tftp`, and then as `BadUrl` where it has a user name or a password, port 0,
/// a host that is neither an address nor the name of a host, or a path that is empty, longer than 400 bytes or not of
/// printable ASCII. What is asked for is the URL's path and query without the first `/`, or the path of a candidate
/// that has one of its own; nothing is decoded, and a fragment is dropped. The port is 69 where the URL has none.
///
/// Answers `Memory` where there is no memory for it, or the URL comes to 4 GB.
///
/// Source: URL Standard, section 4; RFC 1350; RFC 3617.
#[tactic(auto, unfolding(crate::specs::Aim::aim_of))]
pub fn aim(alloc: Global, candidate: &Candidate) -> Result<Aimed, Memory>
    ensures aimed { IfOk result (λ aimed. aimed ≡ aim_of candidate.now) }
    ensures askable { IfOk result (λ aimed. (request : Aim) → aimed ≡ Aimed.Aim request → IsAskable request.way) }
    ensures spot { IfOk result (λ aimed. (request : Aim) → aimed ≡ Aimed.Aim request → IsSpot request.spot) }
{
    let shown = candidate.shown.as_slice();
    match &candidate.place {
        Place::Url => at_text(alloc, shown, None),
        Place::Local { .. } => Ok(Aimed::Local),
        Place::Tftp { path, .. } => at_text(alloc, shown, Some(path.as_slice())),
    }
}
