//! A candidate: where an installer may be.

ghost use Rattle.std.specs.Prelude.{◌≡◌, IfOk};
ghost use Rattle.url_waterfall.specs.Candidates.{local_file};

use bd_dev::{Bytes, Memory};
use std::alloc::Global;

/// Where an installer may be.
#[derive(Drop)]
pub enum Place {
    /// Where the text that is shown says, which is a URL.
    Url,
    /// The file of this name in the volume of this name, on a local medium.
    Local { volume: Bytes, name: Bytes },
    /// The file of this path on this server, over TFTP. The path is as it is shown: one `/` at its front is dropped.
    Tftp { server: Bytes, path: Bytes },
}

/// A place where an installer may be, and the text that is shown for it.
#[derive(Drop)]
pub struct Candidate {
    /// Where the installer may be.
    pub place: Place,
    /// How that is shown: `file://VOLUME/NAME`, `tftp://SERVER/PATH`, or the URL.
    pub shown: Bytes,
}

impl Candidate {
    /// The file of this name in the volume.
    pub(crate) fn local(alloc: Global, volume: &[u8], name: &[u8]) -> Result<Candidate, Memory>
        ensures { IfOk result (λ candidate. candidate ≡ local_file volume.now name.now) }
    {
        let mut shown = Bytes::from_slice(alloc, b"file://")?;
        shown.push_slice(volume)?;
        shown.push_slice(b"/")?;
        shown.push_slice(name)?;
        let place = Place::Local {
            volume: Bytes::from_slice(alloc, volume)?,
            name: Bytes::from_slice(alloc, name)?,
        };
        Ok(Candidate { place, shown })
    }
}
