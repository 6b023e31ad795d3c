//! The line of a refusal, and its one writer.

ghost use Rattle.std.specs.Prelude.{◌≡◌, ◌≢◌, true, false, [], OnOk, OnErr};
ghost use Rattle.bd_dev.specs.Faults.{HasCause};
ghost use Rattle.bd_dev.specs.Sink.{Appends, AppendsFront};
ghost use Rattle.onie_modes.specs.Devices.{seen};
ghost use Rattle.onie_modes.specs.Running.{Reports};
ghost use Rattle.onie_modes.specs.Refusal.{has_number, ident_line_of, refusal_line_of, refused_line_of, script_kind_text, script_line_of, tlv_line_of, unsound_line_of};

use crate::exit::{EepromKind, RefusedKind, Status};
use bd_dev::{Failed, Sink, write_all};
use itoa::Buffer;
use net_script::ScriptKind;
use soundness::SoundKind;
use tlvinfo::{IdentFault, TlvKind};

fn tlv_line(kind: TlvKind) -> &'static [u8]
    ensures { result.now ≡ tlv_line_of kind }
{
    match kind {
        TlvKind::NotTlv => b"onie: eeprom: not tlv\n",
        TlvKind::Version(_) => b"onie: eeprom: version\n",
        TlvKind::Length { .. } => b"onie: eeprom: length\n",
        TlvKind::Cut { .. } => b"onie: eeprom: cut\n",
        TlvKind::BadLength { .. } => b"onie: eeprom: bad length\n",
        TlvKind::Repeated { .. } => b"onie: eeprom: repeated\n",
        TlvKind::AfterCrc { .. } => b"onie: eeprom: after crc\n",
        TlvKind::NoCrc => b"onie: eeprom: no crc\n",
        TlvKind::Crc { .. } => b"onie: eeprom: crc\n",
    }
}

fn ident_line(fault: IdentFault) -> &'static [u8]
    ensures { result.now ≡ ident_line_of fault }
{
    match fault {
        IdentFault::NoPlatform => b"onie: eeprom: no platform\n",
        IdentFault::Platform => b"onie: eeprom: platform\n",
        IdentFault::NoMac => b"onie: eeprom: no mac\n",
    }
}

fn unsound_line(kind: SoundKind) -> &'static [u8]
    ensures { result.now ≡ unsound_line_of kind }
{
    match kind {
        SoundKind::NoTable => b"onie: not sound: no table\n",
        SoundKind::Entries => b"onie: not sound: entries\n",
        SoundKind::NoOnie => b"onie: not sound: no onie\n",
        SoundKind::TwoOnie => b"onie: not sound: two onie\n",
        SoundKind::NoImage => b"onie: not sound: no image\n",
        SoundKind::NoVars => b"onie: not sound: no variables\n",
    }
}

fn refused_line(kind: RefusedKind) -> &'static [u8]
    ensures { result.now ≡ refused_line_of kind }
{
    match kind {
        RefusedKind::BadName => b"onie: refused: bad name\n",
        RefusedKind::BadText => b"onie: refused: bad text\n",
        RefusedKind::VarsFull => b"onie: refused: variables full\n",
        RefusedKind::SeqEnd => b"onie: refused: sequence end\n",
        RefusedKind::BadCode => b"onie: refused: bad code\n",
        RefusedKind::BadValue => b"onie: refused: bad value\n",
        RefusedKind::TooLong => b"onie: refused: too long\n",
    }
}

/// What is wrong with a line of a script, and the line's end.
fn script_kind_text(kind: ScriptKind) -> &'static [u8]
    ensures { result.now ≡ script_kind_text kind }
{
    match kind {
        ScriptKind::TooLong => b": too long\n",
        ScriptKind::Unknown => b": unknown\n",
        ScriptKind::Missing => b": missing\n",
        ScriptKind::Extra => b": extra\n",
        ScriptKind::Number => b": number\n",
        ScriptKind::Hex => b": hex\n",
        ScriptKind::Address => b": address\n",
        ScriptKind::Iface => b": iface\n",
        ScriptKind::NoFlow => b": no flow\n",
        ScriptKind::NoBody => b": no body\n",
    }
}

/// The line of a status that has no number in it: empty where it has none.
fn plain_line(status: Status) -> &'static [u8]
    ensures { has_number status ≡ false → result.now ≡ refusal_line_of status }
{
    match status {
        Status::Done(_) | Status::BadScript { .. } | Status::SinkFault | Status::Memory => b"",
        Status::Usage => b"onie: usage\n",
        Status::NotSound(kind) => unsound_line(kind),
        Status::BadEeprom(EepromKind::Tlv(kind)) => tlv_line(kind),
        Status::BadEeprom(EepromKind::Ident(fault)) => ident_line(fault),
        Status::PlantFault => b"onie: plant fault\n",
        Status::EepromFault => b"onie: eeprom fault\n",
        Status::MediaFault => b"onie: media fault\n",
        Status::SourceFault => b"onie: source fault\n",
        Status::Refused(kind) => refused_line(kind),
    }
}

/// Writes the line of a script that is none.
fn write_script_line<C: Sink>(console: &mut C, line: u32, kind: ScriptKind) -> Result<(), Failed>
    ensures written { OnOk result (Appends (C.taken console.old) (C.taken console.new) (script_line_of line kind)) }
    ensures front { OnErr result (AppendsFront (C.taken console.old) (C.taken console.new) (script_line_of line kind)) }
    ensures cause { HasCause (C.faults console.old) (C.faults console.new) result }
{
    let mut digits = Buffer::new();
    write_all(console, b"onie: script line ")?;
    write_all(console, digits.format(line).as_bytes())?;
    write_all(console, script_kind_text(kind))?;
    Ok(())
}

/// Writes the line of a status.
fn write_line<C: Sink>(console: &mut C, status: Status) -> Result<(), Failed>
    ensures written { OnOk result (Appends (C.taken console.old) (C.taken console.new) (refusal_line_of status)) }
    ensures front { OnErr result (AppendsFront (C.taken console.old) (C.taken console.new) (refusal_line_of status)) }
    ensures cause { HasCause (C.faults console.old) (C.faults console.new) result }
{
    match status {
        Status::BadScript { line, kind } => write_script_line(console, line, kind),
        _ => write_all(console, plain_line(status)),
    }
}

/// Whether the status has no line.
fn is_silent(status: Status) -> bool
    ensures silent { result ≡ true → refusal_line_of status ≡ [] }
    ensures loud { result ≡ false → refusal_line_of status ≢ [] }
{
    match status {
        Status::Done(_) | Status::SinkFault | Status::Memory => true,
        _ => false,
    }
}

/// Writes the line of a status. Answers that status, or the console's fault where the write fails. Nothing is written
/// of a status without a line.
pub fn report<C: Sink>(console: &mut C, status: Status) -> Status
    ensures reports { Reports (seen (C.taken console.old) (C.faults console.old))
        (seen (C.taken console.new) (C.faults console.new)) status result }
{
    if is_silent(status) {
        return status;
    }
    match write_line(console, status) {
        Ok(()) => status,
        Err(_) => Status::SinkFault,
    }
}
