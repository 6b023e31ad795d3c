//! A lease.

ghost use Rattle.std.specs.Prelude.{◌≡◌, IfOk};
ghost use Rattle.dhcp_lease.specs.Lease.{lease_of};
ghost use Rattle.dhcp_lease.specs.LeaseView.{terms_of};

use crate::addresses::addresses;
use crate::texts::{kept, text_of, text_or};
use crate::vendor::suboption_text;
use arrayvec::ArrayVec;
use bd_dev::{Bytes, Memory};
use bd_text::V4;
use dhcp_msg::Message;
use std::alloc::Global;

/// The code of the name servers (RFC 2132, section 3.8).
const NAME_SERVERS: u8 = 6;

/// The code of the TFTP server's name (RFC 2132, section 9.4).
const TFTP_SERVER: u8 = 66;

/// The code of the boot file's name (RFC 2132, section 9.5).
const BOOT_FILE: u8 = 67;

/// The code of the web servers (RFC 2132, section 8.17).
const WEB_SERVERS: u8 = 72;

/// The code of a URL; this project's reading.
const URL: u8 = 114;

/// The code of vendors' own options (RFC 3925, section 4).
const VENDORS: u8 = 125;

/// The code of the TFTP servers (RFC 5859).
const TFTP_SERVERS: u8 = 150;

/// ONIE's sub-option with an installer's URL; this project's reading.
const INSTALLER: u8 = 1;

/// ONIE's sub-option with an updater's URL; this project's reading.
const UPDATER: u8 = 2;

/// What a server gave a client. A text has no zeros at its end, and one or more bytes of 21 to 7E. Of a list of
/// addresses the first eight are kept.
#[derive(Drop)]
pub struct Lease {
    /// The client's address.
    pub address: V4,
    /// The server that gave it.
    pub server: V4,
    /// The next server in the boot; 0.0.0.0 for none.
    pub siaddr: V4,
    /// The name servers, option 6.
    pub dns: ArrayVec<V4, 8>,
    /// The web servers, option 72.
    pub www: ArrayVec<V4, 8>,
    /// The TFTP servers, option 150.
    pub tftps: ArrayVec<V4, 8>,
    /// The TFTP server's name: option 66, or the `sname` field where that is absent.
    pub tftp_name: Option<Bytes>,
    /// The boot file: option 67, or the `file` field where that is absent.
    pub file: Option<Bytes>,
    /// A URL, option 114.
    pub url: Option<Bytes>,
    /// The installer's URL, ONIE's sub-option 1 in option 125.
    pub onie_install: Option<Bytes>,
    /// The updater's URL, ONIE's sub-option 2 in option 125.
    pub onie_update: Option<Bytes>,
}

/// The lease that a message of a server gives, or `Memory`.
///
/// Sources: RFC 2131, section 2; RFC 2132, sections 3.8, 8.17, 9.4 and 9.5; RFC 3925, section 4; RFC 5859. Option 114,
/// ONIE's sub-options, the rule on texts and the limit of eight addresses are this project's.
pub fn read_lease(alloc: Global, message: &Message, server: V4) -> Result<Lease, Memory>
    ensures { IfOk result (λ lease. terms_of lease ≡ lease_of message.now server) }
{
    let options = &message.options;
    let tftp_name = kept(
        alloc,
        text_or(options.get(TFTP_SERVER), message.sname.as_slice()),
    )?;
    let file = kept(
        alloc,
        text_or(options.get(BOOT_FILE), message.file.as_slice()),
    )?;
    let url = kept(alloc, text_of(options.get(URL)))?;
    let onie_install = kept(alloc, suboption_text(options.get(VENDORS), INSTALLER))?;
    let onie_update = kept(alloc, suboption_text(options.get(VENDORS), UPDATER))?;
    Ok(Lease {
        address: message.yiaddr,
        server,
        siaddr: message.siaddr,
        dns: addresses(options.get(NAME_SERVERS)),
        www: addresses(options.get(WEB_SERVERS)),
        tftps: addresses(options.get(TFTP_SERVERS)),
        tftp_name,
        file,
        url,
        onie_install,
        onie_update,
    })
}
