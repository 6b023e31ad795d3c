//! An EEPROM: at most 2,048 bytes that are loaded whole, and stored from their front.

ghost use Rattle.std.specs.Prelude.{◌≡◌, ℕ, ◌≤◌, List, Option, length, IfOk, OnOk, is_some};
ghost use Rattle.bd_dev.specs.Faults.{HasCause};
ghost use Rattle.bd_dev.specs.Eeprom.{Loads, Stores};

use crate::faults::Failed;

/// An EEPROM of at most 2,048 bytes.
pub trait Eeprom {
    /// The bytes that it holds, where it tells them.
    ghost content: { Self → Option (List ℕ) };

    /// The count of its faults.
    ghost faults: { Self → ℕ };

    /// Puts the content at the front of `out` and gives its length in bytes, or fails and counts
    /// it.
    fn load(&mut self, out: &mut [u8; 2048]) -> Result<usize, Failed>
        ensures loaded { IfOk result (λ n. Loads (content self.old) n out.new) }
        ensures kept { content self.new ≡ content self.old }
        ensures cause { HasCause (faults self.old) (faults self.new) result };

    /// Replaces the front of the content by these bytes, at most 2,048, and keeps what it has
    /// behind them. Or fails and counts it: then the content may be any bytes.
    fn store(&mut self, bytes: &[u8]) -> Result<(), Failed>
        requires { length bytes.now ≤ 2048 }
        ensures stored { OnOk result (Stores (content self.old) (content self.new) bytes.now) }
        ensures told { is_some (content self.new) ≡ is_some (content self.old) }
        ensures cause { HasCause (faults self.old) (faults self.new) result };
}
