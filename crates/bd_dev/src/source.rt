//! A source: bytes that are read in order.

ghost use Rattle.std.specs.Prelude.{◌≡◌, ◌≤◌, ◌<◌, ℕ, List, Option, length, take, IfOk, OnErr};
ghost use Rattle.std.specs.Option.{ForSome};
ghost use Rattle.bd_dev.specs.Faults.{HasCause, HasCauseOr};
ghost use Rattle.bd_dev.specs.Source.{Gives, emptied};

use crate::bytes::Bytes;
use crate::faults::{DevFault, Failed};
use std::alloc::Global;

/// What is read at a time, in bytes.
const PIECE: usize = 16_384;

/// Gives bytes in order, as a file that is read from its start.
pub trait Source {
    /// The bytes that are left, where it tells them.
    ghost left: { Self → Option (List ℕ) };

    /// The count of its faults.
    ghost faults: { Self → ℕ };

    /// Puts the next bytes at the front of `out` and gives how many: 0 for a nonempty `out` only
    /// where none are left. Or fails, gives nothing and counts it.
    fn read(&mut self, out: &mut [u8]) -> Result<usize, Failed>
        ensures given { IfOk result (λ n. Gives (left self.old) (left self.new) n out.new) }
        ensures unchanged { OnErr result (left self.new ≡ left self.old) }
        ensures cause { HasCause (faults self.old) (faults self.new) result };
}

/// Reads a source to its end, or its first `most` bytes where it has more. Answers `Failed` where the source fails, and
/// `Memory` where there is no memory for the bytes.
pub fn read_source<S: Source>(alloc: Global, source: &mut S, most: usize) -> Result<Bytes, DevFault>
    ensures front { IfOk result (λ text. ForSome (S.left source.old) (λ left. text ≡ take most left)) }
    ensures few { IfOk result (λ text. length text ≤ most) }
    ensures read_out { IfOk result (λ text. length text < most
        → S.left source.new ≡ emptied (S.left source.old)) }
    ensures cause { HasCauseOr DevFault.Failed (S.faults source.old) (S.faults source.new) result }
{
    let mut piece = [0u8; PIECE];
    let mut text = Bytes::from_slice(alloc, b"")?;
    while text.as_slice().len() < most {
        let room = (most - text.as_slice().len()).min(PIECE);
        let count = source.read(&mut piece[..room])?;
        if count == 0 {
            return Ok(text);
        }
        text.push_slice(&piece[..count])?;
    }
    Ok(text)
}
