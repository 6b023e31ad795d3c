//! A message from bytes.

ghost use Rattle.std.specs.Prelude.{◌≡◌, ◌<◌, ◌≤◌, ◌+◌, ◌^◌, length, false, Ok, IfOk};
ghost use Rattle.dhcp_msg.specs.Layout.{message_at, text_of as text_in};
ghost use Rattle.dhcp_msg.specs.Messages.{IsMessage};
ghost use Rattle.dhcp_msg.specs.Reading.{front_of, overloaded_in, reading, Gives};
ghost use Rattle.dhcp_msg.specs.Steps.{Reads};
ghost use Rattle.dhcp_msg.specs.declared.message.Message.{Message as MessageValue};

use crate::fault::DhcpFault;
use crate::fields::{OVERLOAD, read_field};
use crate::layout::{
    COOKIE, FILE, FILE_SIZE, OPTIONS, SNAME, SNAME_SIZE, before_zero, mac_at, options_field, v4_at,
};
use crate::message::Message;
use crate::options::Options;
use crate::overload::read_overload;
use bd_dev::{Bytes, Memory};
use byteorder::{BigEndian, ByteOrder};
use std::alloc::Global;

/// Tests that the fields of fixed size and the cookie are there.
#[tactic(auto, unfolding(crate::specs::Reading::front_of))]
fn test_front(bytes: &[u8]) -> Result<(), DhcpFault>
    ensures exact { result ≡ front_of bytes.now }
    ensures long { IfOk result (λ _. 240 ≤ length bytes.now) }
{
    if bytes.len() < OPTIONS {
        return Err(DhcpFault::Short);
    }
    let cookie = &bytes[236..240];
    if cookie != COOKIE.as_slice() {
        return Err(DhcpFault::NoCookie);
    }
    Ok(())
}

/// Adds the options of a field that may be overloaded.
#[tactic(auto, unfolding(crate::specs::Reading::overloaded_in))]
fn read_overloaded(
    options: &mut Options,
    is_overloaded: bool,
    field: &[u8],
    place: usize,
) -> Result<(), DhcpFault>
    requires { place + length field.now < 2 ^ 64 }
    ensures { Reads false (overloaded_in is_overloaded place field.now) options.old result options.new }
{
    if is_overloaded {
        read_field(options, true, field, place)?;
    }
    Ok(())
}

/// The text of a field, none where it is overloaded.
fn text_of(alloc: Global, is_overloaded: bool, field: &[u8]) -> Result<Bytes, Memory>
    ensures { IfOk result (λ text. text ≡ text_in is_overloaded field.now) }
{
    if is_overloaded {
        return Bytes::from_slice(alloc, &[]);
    }
    Bytes::from_slice(alloc, before_zero(field))
}

/// The message with these texts and options.
#[tactic(auto, unfolding(crate::specs::Layout::message_at))]
fn message_of(bytes: &[u8], sname: Bytes, file: Bytes, options: Options) -> Message
    requires { 240 ≤ length bytes.now }
    ensures { result ≡ message_at bytes.now sname file options }
{
    Message {
        op: bytes[0],
        xid: BigEndian::read_u32(&bytes[4..]),
        flags: BigEndian::read_u16(&bytes[10..]),
        yiaddr: v4_at(bytes, 16),
        siaddr: v4_at(bytes, 20),
        chaddr: mac_at(bytes, 28),
        sname,
        file,
        options,
    }
}

fn read(alloc: Global, bytes: &[u8]) -> Result<Message, DhcpFault>
    ensures { Gives result (reading bytes.now) }
{
    test_front(bytes)?;
    let file = &bytes[FILE..FILE + FILE_SIZE];
    let sname = &bytes[SNAME..SNAME + SNAME_SIZE];
    let mut options = Options::new(alloc);
    read_field(&mut options, false, options_field(bytes), OPTIONS)?;
    let overload = read_overload(options.get(OVERLOAD))?;
    read_overloaded(&mut options, overload.file, file, FILE)?;
    read_overloaded(&mut options, overload.sname, sname, SNAME)?;
    let sname = text_of(alloc, overload.sname, sname)?;
    let file = text_of(alloc, overload.file, file)?;
    Ok(message_of(bytes, sname, file, options))
}

/// Reads a DHCP message.
///
/// Options stand behind the cookie, and also in the fields `file` and `sname` where the option overload says so; values of
/// options of one code are joined in that order. What follows an end option means nothing, and a field may lack it. Not
/// looked at are `htype`, `hlen`, `hops`, `secs`, `ciaddr`, `giaddr` and the last ten bytes of `chaddr`.
///
/// Answers the first fault, in the order of [`DhcpFault`]. The fields of fixed size and the cookie are tested before memory
/// is taken.
///
/// Sources: RFC 2131, sections 2, 3 and 4.1; RFC 2132, sections 2, 3.1, 3.2 and 9.3; RFC 3396.
pub fn decode(alloc: Global, bytes: &[u8]) -> Result<Message, DhcpFault>
    // What is read stands so in the bytes.
    ensures found { IfOk result (IsMessage bytes.now) }
    // What stands so is read, unless memory runs out.
    ensures only { (message : MessageValue) → IsMessage bytes.now message → Gives result (Ok message) }
    // Which fault it is: the first.
    ensures exact { Gives result (reading bytes.now) }
{
    read(alloc, bytes)
}
