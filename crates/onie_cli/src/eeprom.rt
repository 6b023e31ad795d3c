//! `eeprom`: the fields that the EEPROM holds, a line each.

ghost use Rattle.std.specs.Prelude.{◌≡◌, ◌≤◌, ◌<◌, IsTrue, IfOk, OnOk, OnErr, Err, length, slice_index};
ghost use Rattle.bd_codes.specs.TlvTable.{allows};
ghost use Rattle.bd_dev.specs.Faults.{HasCauseOr};
ghost use Rattle.bd_dev.specs.Sink.{Appends, AppendsFront};
ghost use Rattle.onie_modes.specs.Console.{AppendsLines};
ghost use Rattle.onie_modes.specs.Devices.{Devices, seen, with_console, with_eeprom};
ghost use Rattle.onie_modes.specs.Running.{Runs};
ghost use Rattle.onie_cli.specs.Eeprom.{field_line, fields_text, prints_fields, upper_digits};

use bd_dev::{Bytes, DevFault, Eeprom, Memory, Sink, write_all};
use onie_modes::{Outcome, Status, load_info};
use std::alloc::Global;
use tlv_text::value_text;
use tlvinfo::Info;

fn digit(value: u8) -> u8
    requires { value < 16 }
    ensures { result ≡ slice_index upper_digits value }
{
    b"0123456789ABCDEF"[usize::from(value)]
}

/// The line of a field.
fn field_line(alloc: Global, code: u8, value: &[u8]) -> Result<Bytes, Memory>
    requires allowed { IsTrue (allows code (length value.now)) }
    requires short { length value.now ≤ 255 }
    ensures { IfOk result (λ line. line ≡ field_line (record { code = code; value = value.now })) }
{
    let mut line = Bytes::from_slice(alloc, b"0x")?;
    line.push_slice(&[digit(code / 16), digit(code % 16), b' '])?;
    line.push_slice(value_text(code, value).as_str().as_bytes())?;
    line.push_slice(b"\n")?;
    Ok(line)
}

/// Prints the line of a field.
fn print_field<C: Sink>(
    alloc: Global,
    code: u8,
    value: &[u8],
    console: &mut C,
) -> Result<(), DevFault>
    requires allowed { IsTrue (allows code (length value.now)) }
    requires short { length value.now ≤ 255 }
    ensures line { OnOk result (Appends (C.taken console.old) (C.taken console.new) (field_line (record { code = code; value = value.now }))) }
    ensures front { OnErr result (AppendsFront (C.taken console.old) (C.taken console.new) (field_line (record { code = code; value = value.now }))) }
    ensures unprinted { result ≡ Err DevFault.Memory → C.taken console.new ≡ C.taken console.old }
    ensures cause { HasCauseOr DevFault.Failed (C.faults console.old) (C.faults console.new) result }
{
    let line = field_line(alloc, code, value)?;
    write_all(console, line.as_slice())?;
    Ok(())
}

/// Prints a line for each field.
fn print_fields<C: Sink>(alloc: Global, info: &Info, console: &mut C) -> Result<(), DevFault>
    requires small { length info.now ≤ 2048 }
    ensures lines { OnOk result (Appends (C.taken console.old) (C.taken console.new) (fields_text info.now)) }
    ensures front { OnErr result (AppendsFront (C.taken console.old) (C.taken console.new) (fields_text info.now)) }
    ensures whole { result ≡ Err DevFault.Memory → AppendsLines (C.taken console.old) (C.taken console.new) (fields_text info.now) }
    ensures cause { HasCauseOr DevFault.Failed (C.faults console.old) (C.faults console.new) result }
{
    let mut place = 0;
    while let Some((code, value)) = info.field(place) {
        print_field(alloc, code, value, console)?;
        place += 1;
    }
    Ok(())
}

/// Prints the fields that the EEPROM holds; the line of its end is not written yet.
pub(crate) fn print_eeprom<E: Eeprom, C: Sink>(
    alloc: Global,
    eeprom: &mut E,
    console: &mut C,
) -> Status
    ensures kept { E.content eeprom.new ≡ E.content eeprom.old }
    ensures runs { (d : Devices) → Runs prints_fields
        (with_eeprom (with_console d (seen (C.taken console.old) (C.faults console.old))) (seen (E.content eeprom.old) (E.faults eeprom.old)))
        (with_eeprom (with_console d (seen (C.taken console.new) (C.faults console.new))) (seen (E.content eeprom.new) (E.faults eeprom.new)))
        result }
{
    let info = match load_info(alloc, eeprom) {
        Ok(info) => info,
        Err(fault) => return fault.status(),
    };
    match print_fields(alloc, &info, console) {
        Ok(()) => Status::Done(Outcome::Printed),
        Err(DevFault::Failed) => Status::SinkFault,
        Err(DevFault::Memory) => Status::Memory,
    }
}
