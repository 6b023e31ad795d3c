//! Bytes from a message.

ghost use Rattle.std.specs.Prelude.{◌≡◌, ◌<◌, ◌≤◌, ◌^◌, ◌++◌, ◌∷◌, [], length, OnOk, IfOk};
ghost use Rattle.std.specs.List.{AllByRecursion};
ghost use Rattle.dhcp_msg.specs.Messages.{CanBeWritten, IsMessage, IsWritable};
ghost use Rattle.dhcp_msg.specs.Options.{AreDistinct};
ghost use Rattle.dhcp_msg.specs.Spelling.{HasAddressSizes, address_bytes, head_bytes, options_bytes, padded, spelling};

use crate::fields::END;
use crate::layout::{COOKIE, FILE_SIZE, SNAME_SIZE};
use crate::message::Message;
use crate::options::Options;
use bd_dev::{Bytes, Memory};
use std::alloc::Global;

/// Zeros for the longest field.
const ZEROS: [u8; 128] = [0; 128];

/// Puts the fields before the addresses at the end.
fn push_head(out: &mut Bytes, message: &Message) -> Result<(), Memory>
    ensures written { OnOk result (out.new ≡ out.old ++ head_bytes message.now) }
    ensures small { OnOk result ((message.now.xid < 2 ^ 32) × (message.now.flags < 2 ^ 16)) }
{
    out.push_slice(&[message.op, 1, 6, 0])?;
    out.push_slice(&message.xid.to_be_bytes())?;
    out.push_slice(&[0, 0])?;
    out.push_slice(&message.flags.to_be_bytes())?;
    Ok(())
}

/// Puts the addresses at the end.
fn push_addresses(out: &mut Bytes, message: &Message) -> Result<(), Memory>
    ensures written { OnOk result (out.new ≡ out.old ++ address_bytes message.now) }
    ensures sizes { OnOk result (HasAddressSizes message.now) }
{
    out.push_slice(&[0; 4])?;
    out.push_slice(&message.yiaddr.bytes)?;
    out.push_slice(&message.siaddr.bytes)?;
    out.push_slice(&[0; 4])?;
    out.push_slice(&message.chaddr.bytes)?;
    out.push_slice(&[0; 10])?;
    Ok(())
}

/// Puts a text at the end, in a field of this size.
fn push_text(out: &mut Bytes, text: &Bytes, size: usize) -> Result<(), Memory>
    requires fits { length text.now ≤ size }
    requires small { size ≤ 128 }
    ensures { OnOk result (out.new ≡ out.old ++ padded size text.now) }
{
    let text = text.as_slice();
    out.push_slice(text)?;
    out.push_slice(&ZEROS[..size - text.len()])?;
    Ok(())
}

/// Puts the options and their end at the end.
fn push_options(out: &mut Bytes, options: &Options) -> Result<(), Memory>
    requires { AllByRecursion IsWritable options.now }
    ensures written { OnOk result (out.new ≡ out.old ++ options_bytes options.now) }
    ensures distinct { AreDistinct options.now }
{
    for option in options.as_slice() {
        let value = option.value.as_slice();
        out.push_slice(&[option.code, value.len() as u8])?;
        out.push_slice(value)?;
    }
    out.push_slice(&[END])?;
    Ok(())
}

/// Writes a DHCP message, or answers `Memory`: Ethernet's `htype` and `hlen`, the fields of the message with zeros behind
/// them, the cookie, the options in their order and the end option. What isn't a field of [`Message`] is zero.
///
/// Asks for options of at most 255 bytes, none of them a pad, an end or an option overload, and for texts without zeros
/// that fit their fields.
///
/// Sources: RFC 2131, sections 2 and 3; RFC 2132, section 2.
pub fn encode(alloc: Global, message: &Message) -> Result<Bytes, Memory>
    requires { CanBeWritten message.now }
    ensures spelled { IfOk result (λ bytes. bytes ≡ spelling message.now) }
    // What is written is read as this message.
    ensures reads { IfOk result (λ bytes. IsMessage bytes message.now) }
{
    let mut out = Bytes::from_slice(alloc, &[])?;
    push_head(&mut out, message)?;
    push_addresses(&mut out, message)?;
    push_text(&mut out, &message.sname, SNAME_SIZE)?;
    push_text(&mut out, &message.file, FILE_SIZE)?;
    out.push_slice(&COOKIE)?;
    push_options(&mut out, &message.options)?;
    Ok(out)
}
