//! What a board boots.

ghost use Rattle.std.specs.Prelude.{◌≡◌, ◌≢◌, ◌↔◌, IsTrue};
ghost use Rattle.storage_model.specs.Entries.{onie_type, unused_type};
ghost use Rattle.soundness.specs.Booting.{HasNos, IsBoot, IsNos};

use crate::onie::is_onie;
use crate::outcome::Boots;
use bd_mode::Mode;
use bd_text::Guid;
use boot_vars::BootVars;
use gpt_copy::{Entry, Table};
use gpt_table::is_used;

/// Whether an entry is used, has this GUID and is not of ONIE's type.
fn is_nos(entry: &Entry, guid: Guid) -> bool
    ensures { IsTrue result ↔ IsNos entry.now guid }
{
    is_used(entry) && entry.guid == guid && !is_onie(entry)
}

/// Whether a used entry that is not of ONIE's type has this GUID.
pub fn has_nos(table: &Table, guid: Guid) -> bool
    ensures { IsTrue result ↔ HasNos table.now guid }
{
    let entries = table.entries.as_slice();
    for place in 0..entries.len() {
        if is_nos(&entries[place], guid) {
            return true;
        }
    }
    false
}

/// What a sound board with this table and these variables boots: ONIE in the mode that the variables ask for, else the
/// operating system that they name, where a used entry other than ONIE's has its GUID, else ONIE in mode install.
pub fn boots(table: &Table, vars: &BootVars) -> Boots
    ensures { IsBoot table.now vars.now.text result }
{
    if let Some(mode) = vars.mode() {
        return Boots::Onie(mode);
    }
    match vars.named() {
        Some(guid) if has_nos(table, guid) => Boots::Nos(guid),
        _ => Boots::Onie(Mode::Install),
    }
}
