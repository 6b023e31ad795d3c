//! Ethernet addresses.

ghost use Rattle.std.specs.Prelude.{◌≡◌, ℕ, ◌+◌, ◌%◌, ◌^◌, ◌<◌, length, List, Some, IfSome};
ghost use Rattle.byteorder.specs.Endian.{big_number};
ghost use Rattle.bd_text.specs.Mac.{SpellsMac, mac_text};

use crate::digits::{Case, push_numeral};
use crate::endian::read_u48;
use crate::parts::{Form, joined_bytes, push_mark};
use arrayvec::ArrayString;
use byteorder::{BigEndian, ByteOrder};

/// An Ethernet address (IEEE 802).
#[derive(Clone, Copy, Debug, PartialEq, Eq)]
pub struct Mac {
    /// The bytes in the order in which they are sent.
    pub bytes: [u8; 6],
}

fn pairs_text(bytes: &[u8]) -> ArrayString<40>
    requires { length bytes.now ≡ 6 }
    ensures printed { result.bytes ≡ mac_text bytes.now }
    ensures spelled { SpellsMac bytes.now result.bytes }
{
    let mut text = ArrayString::new();
    for (place, byte) in bytes.iter().enumerate() {
        push_mark(&mut text, place, b':');
        push_numeral(&mut text, Case::Upper, 16, 2, u64::from(*byte));
    }
    text
}

impl Mac {
    /// Reads six pairs of hexadecimal digits with `:` between each two, letters in either case.
    /// `None` exactly where the text is not so.
    pub fn parse(text: &[u8]) -> Option<Mac>
        ensures sound { IfSome result (λ mac. SpellsMac mac.bytes text.now) }
        ensures only { (bytes : List ℕ) → SpellsMac bytes text.now
            → result ≡ Some (record { bytes = bytes }) }
    {
        let bytes = joined_bytes(text, b':', Form::Pair)?;
        Some(Mac { bytes })
    }

    /// Prints six pairs of hexadecimal digits with `:` between each two, letters in upper case: 17
    /// bytes.
    pub fn text(&self) -> ArrayString<40>
        ensures printed { result.bytes ≡ mac_text self.now.bytes }
        ensures spelled { SpellsMac self.now.bytes result.bytes }
    {
        pairs_text(&self.bytes)
    }

    /// The address `n` further on: the sum of the big-endian numbers of 48 bits, which wraps to 0.
    pub fn plus(&self, n: u8) -> Mac
        ensures { big_number 6 result.bytes ≡ (big_number 6 self.now.bytes + n) % 2 ^ 48 }
    {
        let sum = (read_u48(&self.bytes) + u64::from(n)) % (1 << 48);
        let mut bytes = [0; 6];
        BigEndian::write_u48(&mut bytes, sum);
        Mac { bytes }
    }
}
