//! The lines of entries.

ghost use Rattle.std.specs.Prelude.{OnErr, OnOk};
ghost use Rattle.bd_dev.specs.Faults.{HasCause};
ghost use Rattle.bd_dev.specs.Sink.{Appends, AppendsFront};
ghost use Rattle.status_text.specs.StatusText.{entry_line, entry_lines, used_line};

use crate::name::shown_bytes;
use crate::parts::write_parts;
use bd_dev::{Failed, Sink};
use gpt_copy::Entry;
use gpt_table::is_used;
use itoa::Buffer;

/// Writes the line of an entry with this number.
fn print_entry<C: Sink>(console: &mut C, number: u64, entry: &Entry) -> Result<(), Failed>
    ensures written { OnOk result (Appends (C.taken console.old) (C.taken console.new) (entry_line number entry.now)) }
    ensures front { OnErr result (AppendsFront (C.taken console.old) (C.taken console.new) (entry_line number entry.now)) }
    ensures cause { HasCause (C.faults console.old) (C.faults console.new) result }
{
    let (guid, kind) = (entry.guid.text(), entry.kind.text());
    let (name, length) = shown_bytes(&entry.name);
    let (mut digits, mut first, mut last) = (Buffer::new(), Buffer::new(), Buffer::new());
    let parts: [&[u8]; 13] = [
        b"entry ",
        digits.format(number).as_bytes(),
        b" ",
        guid.as_str().as_bytes(),
        b" ",
        kind.as_str().as_bytes(),
        b" ",
        first.format(entry.first).as_bytes(),
        b" ",
        last.format(entry.last).as_bytes(),
        b" ",
        &name[..length],
        b"\n",
    ];
    write_parts(console, &parts)
}

/// Writes the line of an entry with this number, where it is used.
fn print_used<C: Sink>(console: &mut C, number: u64, entry: &Entry) -> Result<(), Failed>
    ensures written { OnOk result (Appends (C.taken console.old) (C.taken console.new) (used_line number entry.now)) }
    ensures front { OnErr result (AppendsFront (C.taken console.old) (C.taken console.new) (used_line number entry.now)) }
    ensures cause { HasCause (C.faults console.old) (C.faults console.new) result }
{
    if is_used(entry) {
        print_entry(console, number, entry)?;
    }
    Ok(())
}

/// Writes a line for each used entry, with its number from 1.
pub(crate) fn print_entries<C: Sink>(console: &mut C, entries: &[Entry]) -> Result<(), Failed>
    ensures written { OnOk result (Appends (C.taken console.old) (C.taken console.new) (entry_lines 1 entries.now)) }
    ensures front { OnErr result (AppendsFront (C.taken console.old) (C.taken console.new) (entry_lines 1 entries.now)) }
    ensures cause { HasCause (C.faults console.old) (C.faults console.new) result }
{
    for place in 0..entries.len() {
        print_used(console, place as u64 + 1, &entries[place])?;
    }
    Ok(())
}
