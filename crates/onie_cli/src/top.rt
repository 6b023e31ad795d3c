//! The top call.

ghost use Rattle.std.specs.Prelude.{◌≡◌, map, string_bytes};
ghost use Rattle.bd_dev.specs.Runs.{Looks};
ghost use Rattle.onie_modes.specs.Devices.{KeptBy, ThePlant, TheEeprom, TheMedia, TheScript, TheTrace, devices, is_used, seen};
ghost use Rattle.onie_modes.specs.Running.{Does};
ghost use Rattle.onie_cli.specs.Commands.{plan_of, uses};
ghost use Rattle.onie_cli.specs.Words.{asked};

use crate::eeprom::print_eeprom;
use crate::eeprom_set::set_field;
use crate::set::{set_variable, unset_variable};
use crate::status::show_status;
use crate::words::{Command, read_words};
use bd_dev::{Eeprom, Media, Plant, Sink, Source};
use onie_modes::{Status, discover, report};
use std::alloc::Global;

/// Whether a call with these words, those after the program's name, uses the trace: it is to be empty then.
pub fn is_traced(words: &[String]) -> bool
    ensures { result ≡ is_used (uses (asked (map string_bytes words.now)) TheTrace) }
{
    match read_words(words) {
        Some(Command::Discover) => true,
        Some(Command::Status | Command::Eeprom | Command::EepromSet { .. }) => false,
        Some(Command::Set { .. } | Command::Unset { .. }) | None => false,
    }
}

/// Does what the words say over the devices, and answers how it went.
///
/// The words are those after the program's name. `status` alone prints the board's partition table and what boots.
/// `discover` alone reads the script of the network and lists the candidates on local media for installing on the board
/// that the EEPROM identifies, a line each, with what each is found to be. `eeprom` alone prints the fields of the EEPROM,
/// a line each, and `eeprom set CODE TEXT` sets the field of the code to the value that the text spells and stores the
/// fields. `set NAME VALUE` gives a boot variable a value, `unset NAME` takes one out. Other words are no command. A
/// refusal writes its line on the console.
pub fn onie<P: Plant, E: Eeprom, M: Media, S: Source, C: Sink, T: Sink>(
    alloc: Global,
    words: &[String],
    plant: &mut P,
    eeprom: &mut E,
    media: &mut M,
    script: &mut S,
    console: &mut C,
    trace: &mut T,
) -> Status
    // A device that the command doesn't use is as it was, and one that it only reads has its content.
    ensures plant { KeptBy (uses (asked (map string_bytes words.now)) ThePlant) (plant.new ≡ plant.old)
        (Looks (P.view plant.old) (P.view plant.new)) }
    ensures eeprom { KeptBy (uses (asked (map string_bytes words.now)) TheEeprom) (eeprom.new ≡ eeprom.old)
        (E.content eeprom.new ≡ E.content eeprom.old) }
    ensures media { KeptBy (uses (asked (map string_bytes words.now)) TheMedia) (media.new ≡ media.old) (Unit {0}) }
    ensures script { KeptBy (uses (asked (map string_bytes words.now)) TheScript) (script.new ≡ script.old) (Unit {0}) }
    ensures trace { KeptBy (uses (asked (map string_bytes words.now)) TheTrace) (trace.new ≡ trace.old) (Unit {0}) }

    // It takes the course that the devices decide, or is broken off in it; and the line of its end is written behind.
    ensures does { Does (plan_of (asked (map string_bytes words.now)) (P.view plant.old) (P.view plant.new))
        (devices (P.view plant.old).faults (seen (E.content eeprom.old) (E.faults eeprom.old))
        (seen (M.content media.old) (M.faults media.old)) (seen (S.left script.old) (S.faults script.old))
        (seen (C.taken console.old) (C.faults console.old)) (seen (T.taken trace.old) (T.faults trace.old)))
        (devices (P.view plant.new).faults (seen (E.content eeprom.new) (E.faults eeprom.new))
        (seen (M.content media.new) (M.faults media.new)) (seen (S.left script.new) (S.faults script.new))
        (seen (C.taken console.new) (C.faults console.new)) (seen (T.taken trace.new) (T.faults trace.new))) result }
{
    match read_words(words) {
        Some(Command::Discover) => discover(alloc, eeprom, media, script, console, trace),
        Some(Command::Status) => {
            let status = show_status(plant, console);
            report(console, status)
        }
        Some(Command::Eeprom) => {
            let status = print_eeprom(alloc, eeprom, console);
            report(console, status)
        }
        Some(Command::EepromSet { code, text }) => {
            let status = set_field(alloc, eeprom, code, text);
            report(console, status)
        }
        Some(Command::Set { name, value }) => {
            let status = set_variable(plant, name, value);
            report(console, status)
        }
        Some(Command::Unset { name }) => {
            let status = unset_variable(plant, name);
            report(console, status)
        }
        None => report(console, Status::Usage),
    }
}
