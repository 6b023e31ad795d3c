//! The whole text.

ghost use Rattle.std.specs.Prelude.{◌≡◌, OnErr, OnOk};
ghost use Rattle.bd_dev.specs.Faults.{HasCause};
ghost use Rattle.bd_dev.specs.Sink.{Appends, AppendsFront};
ghost use Rattle.status_text.specs.StatusText.{boots_line, status_text, table_line};

use crate::entries::print_entries;
use crate::parts::write_parts;
use bd_dev::{Failed, Sink, write_all};
use gpt_copy::{Table, Which};
use soundness::Boots;

fn table_line(copy: Which) -> &'static [u8]
    ensures { result.now ≡ table_line copy }
{
    match copy {
        Which::Primary => b"table primary\n",
        Which::Backup => b"table backup\n",
    }
}

fn print_boots<C: Sink>(console: &mut C, boots: Boots) -> Result<(), Failed>
    ensures written { OnOk result (Appends (C.taken console.old) (C.taken console.new) (boots_line boots)) }
    ensures front { OnErr result (AppendsFront (C.taken console.old) (C.taken console.new) (boots_line boots)) }
    ensures cause { HasCause (C.faults console.old) (C.faults console.new) result }
{
    match boots {
        Boots::Onie(mode) => write_parts(console, &[b"boots onie ", mode.text(), b"\n"]),
        Boots::Nos(guid) => write_parts(
            console,
            &[b"boots nos ", guid.text().as_str().as_bytes(), b"\n"],
        ),
    }
}

/// Writes which copy of the table counts, a line for each used entry, and what boots. `Failed` where the sink fails,
/// which then took a front of the text.
pub fn print_status<C: Sink>(
    console: &mut C,
    copy: Which,
    table: &Table,
    boots: Boots,
) -> Result<(), Failed>
    ensures written { OnOk result (Appends (C.taken console.old) (C.taken console.new) (status_text copy table.now boots)) }
    ensures front { OnErr result (AppendsFront (C.taken console.old) (C.taken console.new) (status_text copy table.now boots)) }
    ensures cause { HasCause (C.faults console.old) (C.faults console.new) result }
{
    write_all(console, table_line(copy))?;
    print_entries(console, table.entries.as_slice())?;
    print_boots(console, boots)
}
