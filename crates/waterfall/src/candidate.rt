//! A candidate: where an installer may be.

ghost use Rattle.std.specs.Prelude.{◌≡◌, ◌++◌, IfOk};
ghost use Rattle.waterfall.specs.Places.{at_url, local_file, tftp_file, web_file};

use crate::shown::shown_url;
use bd_dev::{Bytes, Memory};
use bd_text::V4;
use std::alloc::Global;

/// Where an installer may be.
#[derive(Drop)]
pub enum Place {
    /// Where the text that is shown says, which is a URL.
    Url,
    /// The file of this name in the volume of this name, on a local medium.
    Local { volume: Bytes, name: Bytes },
    /// The file of this name on this web server.
    Web { server: V4, name: Bytes },
    /// The file of this path on this server, over TFTP. The path is as it is shown: one `/` at its front is dropped.
    Tftp { server: Bytes, path: Bytes },
}

/// A place where an installer may be, and the text that is shown for it.
#[derive(Drop)]
pub struct Candidate {
    /// Where the installer may be.
    pub place: Place,
    /// How that is shown: `file://VOLUME/NAME`, `http://A.B.C.D/NAME`, `tftp://SERVER/PATH`, or the URL.
    pub shown: Bytes,
}

/// Four texts, one behind the other.
fn joined(
    alloc: Global,
    scheme: &[u8],
    place: &[u8],
    mark: &[u8],
    name: &[u8],
) -> Result<Bytes, Memory>
    ensures { IfOk result (λ text. text ≡ scheme.now ++ place.now ++ mark.now ++ name.now) }
{
    let mut text = Bytes::from_slice(alloc, scheme)?;
    text.push_slice(place)?;
    text.push_slice(mark)?;
    text.push_slice(name)?;
    Ok(text)
}

impl Candidate {
    /// What is at a URL.
    pub(crate) fn at_url(alloc: Global, text: &[u8]) -> Result<Candidate, Memory>
        ensures { IfOk result (λ candidate. candidate ≡ at_url text.now) }
    {
        Ok(Candidate {
            place: Place::Url,
            shown: shown_url(alloc, text)?,
        })
    }

    /// The file of this name in the volume.
    pub(crate) fn local(alloc: Global, volume: &[u8], name: &[u8]) -> Result<Candidate, Memory>
        ensures { IfOk result (λ candidate. candidate ≡ local_file volume.now name.now) }
    {
        let shown = joined(alloc, b"file://", volume, b"/", name)?;
        let place = Place::Local {
            volume: Bytes::from_slice(alloc, volume)?,
            name: Bytes::from_slice(alloc, name)?,
        };
        Ok(Candidate { place, shown })
    }

    /// The file of this name on the web server.
    pub(crate) fn web(alloc: Global, server: V4, name: &[u8]) -> Result<Candidate, Memory>
        ensures { IfOk result (λ candidate. candidate ≡ web_file server name.now) }
    {
        let address = server.text();
        let shown = joined(alloc, b"http://", address.as_str().as_bytes(), b"/", name)?;
        let place = Place::Web {
            server,
            name: Bytes::from_slice(alloc, name)?,
        };
        Ok(Candidate { place, shown })
    }

    /// The file of this path on the server, over TFTP.
    pub(crate) fn tftp(alloc: Global, server: &[u8], path: &[u8]) -> Result<Candidate, Memory>
        ensures { IfOk result (λ candidate. candidate ≡ tftp_file server.now path.now) }
    {
        let shown = joined(alloc, b"tftp://", server, b"/", path)?;
        let place = Place::Tftp {
            server: Bytes::from_slice(alloc, server)?,
            path: Bytes::from_slice(alloc, path)?,
        };
        Ok(Candidate { place, shown })
    }
}
