//! The lines of a list of sends.

ghost use Rattle.std.specs.Prelude.{◌≡◌, ◌<◌, ◌++◌, IfOk, OnOk};
ghost use Rattle.std.specs.Fmt.{decimal};
ghost use Rattle.trace_text.specs.TraceText.{digit, hex_text, line_of, trace_text as trace_text_of};

use bd_dev::{Bytes, Memory};
use flow::Sent;
use itoa::Buffer;
use std::alloc::Global;

/// The digit of half a byte.
fn digit(value: u8) -> u8
    requires { value < 16 }
    ensures { result ≡ digit value }
{
    if value < 10 {
        b'0' + value
    } else {
        b'a' + (value - 10)
    }
}

/// Puts a decimal number at the end.
fn push_number(text: &mut Bytes, number: u64) -> Result<(), Memory>
    ensures { OnOk result (text.new ≡ text.old ++ decimal number) }
{
    let mut digits = Buffer::new();
    text.push_slice(digits.format(number).as_bytes())
}

/// Puts bytes at the end, each as two hexadecimal digits.
fn push_hex(text: &mut Bytes, bytes: &[u8]) -> Result<(), Memory>
    ensures { OnOk result (text.new ≡ text.old ++ hex_text bytes.now) }
{
    for byte in bytes {
        text.push_slice(&[digit(*byte / 16), digit(*byte % 16)])?;
    }
    Ok(())
}

/// Puts the line of one send at the end.
fn push_line(text: &mut Bytes, sent: &Sent) -> Result<(), Memory>
    ensures { OnOk result (text.new ≡ text.old ++ line_of sent.now) }
{
    push_number(text, u64::from(sent.round))?;
    text.push_slice(b" ")?;
    push_number(text, sent.at)?;
    text.push_slice(b" ")?;
    text.push_slice(sent.label.as_slice())?;
    text.push_slice(b" -> ")?;
    push_number(text, u64::from(sent.port))?;
    text.push_slice(b" ")?;
    push_hex(text, sent.bytes.as_slice())?;
    text.push_slice(b"\n")
}

/// A line for each of the sends, in their order: `ROUND MS LABEL -> PORT HEX`, with the network's time in milliseconds,
/// port 0 for streams and echo messages, and the bytes in small hexadecimal digits.
///
/// Answers `Memory` where there is no memory for the text.
pub fn trace_text(alloc: Global, sends: &[Sent]) -> Result<Bytes, Memory>
    ensures { IfOk result (λ text. text ≡ trace_text_of sends.now) }
{
    let mut text = Bytes::from_slice(alloc, b"")?;
    for sent in sends {
        push_line(&mut text, sent)?;
    }
    Ok(text)
}
