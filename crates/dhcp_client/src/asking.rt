//! What a client asks.

ghost use Rattle.std.specs.Prelude.{◌≡◌, ◌≤◌, ◌++◌, ◌∷◌, [], length, None, IfOk, OnOk};
ghost use Rattle.dhcp_msg.specs.Options.{value_of};
ghost use Rattle.dhcp_client.specs.Asking.{option, class_of, discover_options, request_options, message_with, options_of, packet_of, xid_of};

use crate::offer::Offer;
use bd_dev::{Bytes, Memory};
use bd_text::{Mac, V4};
use byteorder::{BigEndian, ByteOrder};
use dhcp_msg::{Message, Options, encode};
use std::alloc::Global;

/// What `op` is in a request (RFC 2131, section 2).
const REQUEST: u8 = 1;

/// The flag that asks for a reply by broadcast (RFC 2131, section 2).
const BROADCAST: u16 = 0x8000;

/// The code of the requested address (RFC 2132, section 9.1).
const REQUESTED_ADDRESS: u8 = 50;

/// The code of the message type (RFC 2132, section 9.6).
const MESSAGE_TYPE: u8 = 53;

/// The code of the server identifier (RFC 2132, section 9.7).
const SERVER: u8 = 54;

/// The code of the parameter request list (RFC 2132, section 9.8).
const WANTED: u8 = 55;

/// The code of the vendor class (RFC 2132, section 9.13).
const VENDOR_CLASS: u8 = 60;

/// The codes of what is wanted: the mask, routers, name servers, the TFTP server's name, the boot file, web servers, a URL,
/// vendors' own options and TFTP servers.
const WANTED_CODES: [u8; 9] = [1, 3, 6, 66, 67, 72, 114, 125, 150];

/// The number of an interface's messages in a round: the last four bytes of its Ethernet address as a number, with the
/// round's bits turned.
pub(crate) fn read_xid(mac: Mac, round: u32) -> u32
    ensures { result ≡ xid_of mac round }
{
    BigEndian::read_u32(&mac.bytes[2..]) ^ round
}

/// Puts an option in the last place.
fn push(alloc: Global, options: &mut Options, code: u8, value: &[u8]) -> Result<(), Memory>
    requires { value_of code options.old ≡ None }
    ensures { OnOk result (options.new ≡ options.old ++ option code value.now ∷ []) }
{
    options.push(code, Bytes::from_slice(alloc, value)?)?;
    Ok(())
}

/// What a client says of itself: ONIE's vendor class.
fn class(alloc: Global, platform: &[u8]) -> Result<Bytes, Memory>
    ensures { IfOk result (λ text. text ≡ class_of platform.now) }
{
    let mut text = Bytes::from_slice(alloc, b"onie_vendor:")?;
    text.push_slice(platform)?;
    Ok(text)
}

/// The options of a DISCOVER.
fn make_discover(alloc: Global, class: &[u8]) -> Result<Options, Memory>
    ensures { IfOk result (λ options. options ≡ discover_options class.now) }
{
    let mut options = Options::new(alloc);
    push(alloc, &mut options, MESSAGE_TYPE, &[1])?;
    push(alloc, &mut options, VENDOR_CLASS, class)?;
    push(alloc, &mut options, WANTED, &WANTED_CODES)?;
    Ok(options)
}

/// The options of a REQUEST for this offer.
fn make_request(alloc: Global, offer: Offer, class: &[u8]) -> Result<Options, Memory>
    ensures { IfOk result (λ options. options ≡ request_options offer class.now) }
{
    let mut options = Options::new(alloc);
    push(alloc, &mut options, MESSAGE_TYPE, &[3])?;
    push(alloc, &mut options, REQUESTED_ADDRESS, &offer.address.bytes)?;
    push(alloc, &mut options, SERVER, &offer.server.bytes)?;
    push(alloc, &mut options, VENDOR_CLASS, class)?;
    push(alloc, &mut options, WANTED, &WANTED_CODES)?;
    Ok(options)
}

/// The options of what is asked.
fn make_options(alloc: Global, platform: &[u8], offer: Option<Offer>) -> Result<Options, Memory>
    ensures { IfOk result (λ options. options ≡ options_of platform.now offer) }
{
    let class = class(alloc, platform)?;
    match offer {
        None => make_discover(alloc, class.as_slice()),
        Some(offer) => make_request(alloc, offer, class.as_slice()),
    }
}

/// A message of the client.
fn make_message(alloc: Global, mac: Mac, xid: u32, options: Options) -> Result<Message, Memory>
    ensures { IfOk result (λ message. message ≡ message_with mac xid options) }
{
    Ok(Message {
        op: REQUEST,
        xid,
        flags: BROADCAST,
        yiaddr: V4 { bytes: [0; 4] },
        siaddr: V4 { bytes: [0; 4] },
        chaddr: mac,
        sname: Bytes::from_slice(alloc, b"")?,
        file: Bytes::from_slice(alloc, b"")?,
        options,
    })
}

/// The packet that asks what is offered, or for what the offer says.
pub(crate) fn make_packet(
    alloc: Global,
    mac: Mac,
    xid: u32,
    platform: &[u8],
    offer: Option<Offer>,
) -> Result<Bytes, Memory>
    requires { length platform.now ≤ 200 }
    ensures { IfOk result (λ packet. packet ≡ packet_of mac xid platform.now offer) }
{
    let options = make_options(alloc, platform, offer)?;
    let message = make_message(alloc, mac, xid, options)?;
    encode(alloc, &message)
}
