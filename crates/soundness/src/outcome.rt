//! What a board may boot.

use bd_mode::Mode;
use bd_text::Guid;

/// What a sound board boots.
#[derive(Clone, Copy, Debug, PartialEq, Eq)]
pub enum Boots {
    /// ONIE, in this mode.
    Onie(Mode),
    /// The operating system in the partition with this GUID.
    Nos(Guid),
}
