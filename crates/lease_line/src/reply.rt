//! A reply of a line.

ghost use Rattle.std.specs.Prelude.{◌≡◌, ◌≢◌, ◌<◌, ◌==◌, length, position, IfOk, OnOk};
ghost use Rattle.dhcp_msg.specs.Messages.{IsMessage};
ghost use Rattle.dhcp_msg.specs.Spelling.{spelling};
ghost use Rattle.lease_line.specs.Replies.{Gives, Takes, first_options, first_reply, message_of, reply_in, size_of, type_of, vendor_block, with_list, with_next, with_option, with_word};

use crate::address::{read_address, read_list};
use crate::fault::KeyFault;
use crate::key::Key;
use bd_dev::{Bytes, Memory};
use bd_text::{Mac, V4};
use dhcp_msg::{Message, Options, encode};
use std::alloc::Global;
use std::marker::Model;

/// What `op` is in a reply (RFC 2131, section 2).
const REPLY: u8 = 2;

/// The codes of the message type, the server and the lease time (RFC 2132, sections 9.6, 9.7 and 9.2).
const MESSAGE_TYPE: u8 = 53;

const SERVER: u8 = 54;

const LEASE_TIME: u8 = 51;

/// The lease time of each reply, 3,600 seconds.
const AN_HOUR: [u8; 4] = [0, 0, 0x0e, 0x10];

/// The code of vendors' own options (RFC 3925, section 4), and ONIE's enterprise number.
const VENDORS: u8 = 125;

const ENTERPRISE: [u8; 4] = [0, 0, 0xa6, 0x7f];

/// The most bytes of an option's value.
const LONGEST: usize = 255;

/// The most bytes of a text in option 125: what is left of its value by what stands before the text there.
const LONGEST_IN_BLOCK: usize = 248;

/// Which of the two replies of a line it is.
#[derive(Clone, Copy, Debug, PartialEq, Eq)]
pub enum ReplyKind {
    /// The OFFER.
    Offer,
    /// The ACK.
    Ack,
}

/// A reply of a line, but for the client's Ethernet address and number.
#[derive(Drop)]
pub struct LeaseReply {
    address: V4,
    siaddr: V4,
    options: Options,
}

impl Model for LeaseReply {
    ghost use Rattle.std.specs.List.{AllByRecursion};
    ghost use Rattle.dhcp_msg.specs.Messages.{IsWritable};
    ghost use Rattle.lease_line.specs.Replies.{Reply};

    ghost Value = { Reply };

    ghost view = { λ r. record { address = r.address; siaddr = r.siaddr; options = r.options } };

    ghost invariant = { λ r. AllByRecursion IsWritable r.options };
}

/// The message type of a reply (RFC 2132, section 9.6).
fn type_of(kind: ReplyKind) -> u8
    ensures { result ≡ type_of kind }
{
    match kind {
        ReplyKind::Offer => 2,
        ReplyKind::Ack => 5,
    }
}

/// The options that each reply begins with.
fn first_options(alloc: Global, kind: ReplyKind, server: V4) -> Result<Options, Memory>
    ensures { IfOk result (λ options. options ≡ first_options kind server) }
{
    let mut options = Options::new(alloc);
    options.push(MESSAGE_TYPE, Bytes::from_slice(alloc, &[type_of(kind)])?)?;
    options.push(SERVER, Bytes::from_slice(alloc, &server.bytes)?)?;
    options.push(LEASE_TIME, Bytes::from_slice(alloc, &AN_HOUR)?)?;
    Ok(options)
}

/// How many bytes the value of the code has so far.
fn size_of(options: &Options, code: u8) -> usize
    ensures { result ≡ size_of code options.now }
{
    match options.get(code) {
        Some(value) => value.len(),
        None => 0,
    }
}

/// A block of ONIE's enterprise number with one sub-option (RFC 3925, section 4).
fn vendor_block(alloc: Global, code: u8, text: &[u8]) -> Result<Bytes, Memory>
    requires { length text.now < 249 }
    ensures { IfOk result (λ block. block ≡ vendor_block code text.now) }
{
    let mut block = Bytes::from_slice(alloc, &ENTERPRISE)?;
    let size = text.len() as u8;
    block.push_slice(&[size + 2, code, size])?;
    block.push_slice(text)?;
    Ok(block)
}

/// The place of the first `=`.
fn equals(word: &[u8]) -> Option<usize>
    ensures { result ≡ position (λ b. b == 0x3D) word.now }
{
    word.iter().position(|byte| *byte == b'=')
}

impl LeaseReply {
    /// The reply of a line that has no keys, or `Memory`: a message of a server, which gives an address for an hour.
    ///
    /// Sources: RFC 2131, section 4.3.1; RFC 2132, sections 9.2, 9.6 and 9.7.
    pub fn new(
        alloc: Global,
        kind: ReplyKind,
        address: V4,
        server: V4,
    ) -> Result<LeaseReply, Memory>
        ensures { IfOk result (λ reply. reply ≡ first_reply kind address server) }
    {
        Ok(LeaseReply {
            address,
            siaddr: V4 { bytes: [0; 4] },
            options: first_options(alloc, kind, server)?,
        })
    }

    /// The reply of a line that has no keys, from its words ADDR and SERVER. Refuses them as `Address` where one of them is
    /// no IPv4 address. Or answers `Memory`.
    pub fn read(
        alloc: Global,
        kind: ReplyKind,
        address: &[u8],
        server: &[u8],
    ) -> Result<LeaseReply, KeyFault>
        ensures { Gives result (reply_in kind address.now server.now) }
    {
        let Some(address) = read_address(address) else {
            return Err(KeyFault::Address);
        };
        let Some(server) = read_address(server) else {
            return Err(KeyFault::Address);
        };
        Ok(LeaseReply::new(alloc, kind, address, server)?)
    }

    /// Adds a value to that of its code.
    fn add(&mut self, code: u8, value: &[u8]) -> Result<(), KeyFault>
        requires no_pad { code ≢ 0 }
        requires no_end { code ≢ 255 }
        requires no_overload { code ≢ 52 }
        ensures { Takes result (with_option self.old code value.now) self.new }
    {
        let size = size_of(&self.options, code);
        if value.len() > LONGEST || size > LONGEST - value.len() {
            return Err(KeyFault::TextLong);
        }
        self.options.add(code, value)?;
        Ok(())
    }

    /// Adds a list of addresses.
    fn add_list(&mut self, alloc: Global, code: u8, value: &[u8]) -> Result<(), KeyFault>
        requires no_pad { code ≢ 0 }
        requires no_end { code ≢ 255 }
        requires no_overload { code ≢ 52 }
        ensures { Takes result (with_list self.old code value.now) self.new }
    {
        let Some(list) = read_list(alloc, value)? else {
            return Err(KeyFault::Address);
        };
        self.add(code, list.as_slice())?;
        Ok(())
    }

    /// Adds a block of ONIE's with one sub-option.
    fn add_block(&mut self, alloc: Global, code: u8, text: &[u8]) -> Result<(), KeyFault>
        ensures { Takes result (with_option self.old 125 (vendor_block code text.now)) self.new }
    {
        if text.len() > LONGEST_IN_BLOCK {
            return Err(KeyFault::TextLong);
        }
        let block = vendor_block(alloc, code, text)?;
        self.add(VENDORS, block.as_slice())?;
        Ok(())
    }

    /// Sets the next server of the boot.
    fn set_next(&mut self, value: &[u8]) -> Result<(), KeyFault>
        ensures { Takes result (with_next self.old value.now) self.new }
    {
        let Some(address) = read_address(value) else {
            return Err(KeyFault::Address);
        };
        self.siaddr = address;
        Ok(())
    }

    /// Takes the next word, `KEY=VALUE`. Values of one option are joined in the order of the words; of several `siaddr` the
    /// last counts. Refuses a word as `Unknown` that has no `=` or another key, then as `Address` where an address is none,
    /// and then as `TextLong` where the values of its option come to more than 255 bytes. Or answers `Memory`. A reply that
    /// answered a fault is not used again.
    pub fn take(&mut self, alloc: Global, word: &[u8]) -> Result<(), KeyFault>
        ensures { Takes result (with_word self.old word.now) self.new }
    {
        let Some(at) = equals(word) else {
            return Err(KeyFault::Unknown);
        };
        let value = &word[at + 1..];
        match Key::named(&word[..at]) {
            Some(Key::Mask) => self.add_list(alloc, 1, value),
            Some(Key::Router) => self.add_list(alloc, 3, value),
            Some(Key::Dns) => self.add_list(alloc, 6, value),
            Some(Key::Www) => self.add_list(alloc, 72, value),
            Some(Key::Tftps) => self.add_list(alloc, 150, value),
            Some(Key::Tftp) => self.add(66, value),
            Some(Key::File) => self.add(67, value),
            Some(Key::Url) => self.add(114, value),
            Some(Key::Onie) => self.add_block(alloc, 1, value),
            Some(Key::Update) => self.add_block(alloc, 2, value),
            Some(Key::Siaddr) => self.set_next(value),
            None => Err(KeyFault::Unknown),
        }
    }

    /// The packet for the client with this Ethernet address and number, or `Memory`.
    ///
    /// Sources: RFC 2131, sections 2 and 4.3.1.
    pub fn packet(&self, alloc: Global, mac: Mac, xid: u32) -> Result<Bytes, Memory>
        ensures spelled { IfOk result (λ bytes. bytes ≡ spelling (message_of mac xid self.now)) }
        // What is written is read as this message.
        ensures reads { IfOk result (λ bytes. IsMessage bytes (message_of mac xid self.now)) }
    {
        let message = Message {
            op: REPLY,
            xid,
            flags: 0,
            yiaddr: self.address,
            siaddr: self.siaddr,
            chaddr: mac,
            sname: Bytes::from_slice(alloc, b"")?,
            file: Bytes::from_slice(alloc, b"")?,
            options: self.options.copy(alloc)?,
        };
        encode(alloc, &message)
    }
}
