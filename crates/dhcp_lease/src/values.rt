//! Values of one number or one address.

ghost use Rattle.std.specs.Prelude.{◌≡◌};
ghost use Rattle.std.specs.Option.{option_copied};
ghost use Rattle.dhcp_lease.specs.Values.{address_of, byte_of, server_of, type_of};

use bd_text::V4;
use dhcp_msg::Message;

/// The code of the message type (RFC 2132, section 9.6).
const MESSAGE_TYPE: u8 = 53;

/// The code of the server identifier (RFC 2132, section 9.7).
const SERVER: u8 = 54;

/// The number that a value of one byte is.
fn byte(value: Option<&[u8]>) -> Option<u8>
    ensures { result ≡ byte_of (option_copied value.entry) }
{
    let value = value?;
    if value.len() == 1 {
        Some(value[0])
    } else {
        None
    }
}

/// The address that a value of four bytes is.
fn address(value: Option<&[u8]>) -> Option<V4>
    ensures { result ≡ address_of (option_copied value.entry) }
{
    let value = value?;
    if value.len() != 4 {
        return None;
    }
    let mut bytes = [0; 4];
    bytes.copy_from_slice(value);
    Some(V4 { bytes })
}

/// The message's type, as 2 for an OFFER, 5 for an ACK and 6 for a NAK (RFC 2132, section 9.6). `None` where option 53
/// is absent or isn't one byte.
pub fn message_type(message: &Message) -> Option<u8>
    ensures { result ≡ type_of message.now }
{
    byte(message.options.get(MESSAGE_TYPE))
}

/// The server that the message is of (RFC 2132, section 9.7). `None` where option 54 is absent or isn't four bytes.
pub fn server(message: &Message) -> Option<V4>
    ensures { result ≡ server_of message.now }
{
    address(message.options.get(SERVER))
}
