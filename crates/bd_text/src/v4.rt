//! IPv4 addresses.

ghost use Rattle.std.specs.Prelude.{◌≡◌, ℕ, List, length, Some, IfSome};
ghost use Rattle.bd_text.specs.V4.{SpellsV4, v4_text};

use crate::digits::{Case, push_shortest};
use crate::parts::{Form, joined_bytes, push_mark};
use arrayvec::ArrayString;

/// An IPv4 address.
#[derive(Clone, Copy, Debug, Default, PartialEq, Eq)]
pub struct V4 {
    /// The bytes in the order in which they are sent.
    pub bytes: [u8; 4],
}

fn octets_text(bytes: &[u8]) -> ArrayString<40>
    requires { length bytes.now ≡ 4 }
    ensures printed { result.bytes ≡ v4_text bytes.now }
    ensures spelled { SpellsV4 bytes.now result.bytes }
{
    let mut text = ArrayString::new();
    for (place, byte) in bytes.iter().enumerate() {
        push_mark(&mut text, place, b'.');
        push_shortest(&mut text, Case::Lower, 10, 3, u64::from(*byte));
    }
    text
}

impl V4 {
    /// Reads four decimal numbers below 256 without leading zeros, with `.` between each two (RFC
    /// 3986, section 3.2.2, IPv4address). `None` exactly where the text is not so.
    pub fn parse(text: &[u8]) -> Option<V4>
        ensures sound { IfSome result (λ address. SpellsV4 address.bytes text.now) }
        ensures only { (bytes : List ℕ) → SpellsV4 bytes text.now
            → result ≡ Some (record { bytes = bytes }) }
    {
        let bytes = joined_bytes(text, b'.', Form::Octet)?;
        Some(V4 { bytes })
    }

    /// Prints four decimal numbers without leading zeros, with `.` between each two: 7 to 15 bytes.
    pub fn text(&self) -> ArrayString<40>
        ensures printed { result.bytes ≡ v4_text self.now.bytes }
        ensures spelled { SpellsV4 self.now.bytes result.bytes }
    {
        octets_text(&self.bytes)
    }
}
