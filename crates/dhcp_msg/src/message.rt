//! A message.

use crate::options::Options;
use bd_dev::Bytes;
use bd_text::{Mac, V4};

/// A DHCP message: the fields that are read (RFC 2131, section 2), and its options.
#[derive(Drop)]
pub struct Message {
    /// 1 for a request, 2 for a reply.
    pub op: u8,
    /// The number that joins a reply to its request.
    pub xid: u32,
    /// The flags, the highest of which asks for a reply by broadcast.
    pub flags: u16,
    /// The client's address.
    pub yiaddr: V4,
    /// The address of the next server in the boot.
    pub siaddr: V4,
    /// The client's Ethernet address, the first six bytes of its field.
    pub chaddr: Mac,
    /// The server's name: the bytes of its field before the first zero, none where options stand there.
    pub sname: Bytes,
    /// The boot file's name: the bytes of its field before the first zero, none where options stand there.
    pub file: Bytes,
    /// The options, without pads and the end.
    pub options: Options,
}
