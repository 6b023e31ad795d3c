//! What a message means to a client.

ghost use Rattle.std.specs.Prelude.{◌≡◌};
ghost use Rattle.dhcp_client.specs.Meanings.{are_same, is_address, is_for, meaning_of, meaning_of_answer, meaning_of_offer};

use crate::offer::Offer;
use bd_text::{Mac, V4};
use dhcp_lease::{message_type, server};
use dhcp_msg::Message;

/// What `op` is in a reply (RFC 2131, section 2).
const REPLY: u8 = 2;

/// The type of an offer (RFC 2132, section 9.6).
const OFFER: u8 = 2;

/// The type of an acknowledgment (RFC 2132, section 9.6).
const ACK: u8 = 5;

/// The type of a refusal (RFC 2132, section 9.6).
const NAK: u8 = 6;

/// What a message means to a client.
#[derive(Clone, Copy)]
pub(crate) enum Meaning {
    /// A server offers an address.
    Offered(Offer),
    /// The server of the offer gives the lease.
    Granted(V4),
    /// The server of the offer gives none.
    Refused,
    /// It means nothing.
    Nothing,
}

/// Whether the two addresses are one.
fn are_same(one: V4, other: V4) -> bool
    ensures { result ≡ are_same one other }
{
    one.bytes.as_slice() == other.bytes.as_slice()
}

/// Whether it is an address, and not the place of one.
fn is_address(address: V4) -> bool
    ensures { result ≡ is_address address }
{
    address.bytes.as_slice() != [0, 0, 0, 0].as_slice()
}

/// Whether the message is a reply to the client with this Ethernet address and this number.
fn is_for(mac: Mac, xid: u32, message: &Message) -> bool
    ensures { result ≡ is_for mac xid message.now }
{
    message.op == REPLY
        && message.xid == xid
        && message.chaddr.bytes.as_slice() == mac.bytes.as_slice()
}

/// What a message of this type from this server means to a client that waits for an offer.
fn read_offer(message: &Message, kind: u8, server: V4) -> Meaning
    ensures { result ≡ meaning_of_offer message.now kind server }
{
    if kind == OFFER && is_address(message.yiaddr) {
        Meaning::Offered(Offer {
            server,
            address: message.yiaddr,
        })
    } else {
        Meaning::Nothing
    }
}

/// What a message of this type from this server means to a client that asked for an offer.
fn read_answer(offer: Offer, kind: u8, server: V4) -> Meaning
    ensures { result ≡ meaning_of_answer offer kind server }
{
    if !are_same(server, offer.server) {
        return Meaning::Nothing;
    }
    match kind {
        ACK => Meaning::Granted(server),
        NAK => Meaning::Refused,
        _ => Meaning::Nothing,
    }
}

/// What a message means to the client with this Ethernet address and this number, which waits for an offer or asked for
/// one.
pub(crate) fn read_meaning(mac: Mac, xid: u32, offer: Option<Offer>, message: &Message) -> Meaning
    ensures { result ≡ meaning_of mac xid offer message.now }
{
    if !is_for(mac, xid, message) {
        return Meaning::Nothing;
    }
    match (message_type(message), server(message)) {
        (Some(kind), Some(server)) => match offer {
            None => read_offer(message, kind, server),
            Some(offer) => read_answer(offer, kind, server),
        },
        _ => Meaning::Nothing,
    }
}
