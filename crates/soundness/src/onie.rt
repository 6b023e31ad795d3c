//! The entry of ONIE's type.

ghost use Rattle.std.specs.Prelude.{◌≡◌, ◌≤◌, ◌↔◌, ℕ, length, IfErr, IfOk, IsTrue, MatchOption};
ghost use Rattle.storage_model.specs.Entries.{OnieEntry, onie_type};
ghost use Rattle.soundness.specs.Onie.{IsNextOnie, IsOnieNumber, NoneWithin};
ghost use Rattle.soundness.specs.Judgement.{IsOnieFault};

use crate::judging::SoundKind;
use bd_text::Guid;
use gpt_copy::{Entry, Table};

/// ONIE's boot type, 7412F7D5-A156-4B13-81DC-867174929325, as EFI keeps it.
const ONIE_TYPE: Guid = Guid {
    bytes: [
        0xD5, 0xF7, 0x12, 0x74, 0x56, 0xA1, 0x13, 0x4B, 0x81, 0xDC, 0x86, 0x71, 0x74, 0x92, 0x93,
        0x25,
    ],
};

/// Whether an entry is of ONIE's type.
pub fn is_onie(entry: &Entry) -> bool
    ensures { IsTrue result ↔ (entry.now.kind ≡ onie_type) }
{
    entry.kind == ONIE_TYPE
}

/// The place of the first entry of ONIE's type from a place on.
fn next_onie(entries: &[Entry], from: usize) -> Option<usize>
    requires { from ≤ length entries.now }
    ensures { MatchOption result (NoneWithin entries.now from (length entries.now)) (IsNextOnie entries.now from) }
{
    for place in from..entries.len() {
        if is_onie(&entries[place]) {
            return Some(place);
        }
    }
    None
}

/// The number, from 1, of the one entry of ONIE's type. `NoOnie` where there is none, `TwoOnie` where there are more.
pub fn onie_number(table: &Table) -> Result<usize, SoundKind>
    ensures one { IfOk result (IsOnieNumber table.now) }
    ensures fault { IfErr result (IsOnieFault table.now) }
{
    let entries = table.entries.as_slice();
    let Some(place) = next_onie(entries, 0) else {
        return Err(SoundKind::NoOnie);
    };
    match next_onie(entries, place + 1) {
        Some(_) => Err(SoundKind::TwoOnie),
        None => Ok(place + 1),
    }
}

/// The one entry of ONIE's type. `NoOnie` where there is none, `TwoOnie` where there are more.
pub fn onie_entry(table: &Table) -> Result<&Entry, SoundKind>
    ensures one { IfOk result (λ e. (i : ℕ) × OnieEntry table.now i e.now) }
    ensures fault { IfErr result (IsOnieFault table.now) }
{
    let entries = table.entries.as_slice();
    match onie_number(table) {
        Ok(number) => Ok(&entries[number - 1]),
        Err(kind) => Err(kind),
    }
}
