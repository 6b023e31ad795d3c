//! Calls of [`onie`]: over any devices, and over a plant in memory beside devices that fail when they are called.

use bd_dev::{Eeprom, Media, MemEeprom, MemMedia, MemSink, MemSource, Plant, Sink, Source};
use bd_sim::SimPlant;
use onie_cli::{Status, onie};
use std::alloc::Global;
use std::test::Fail;

/// What the words answer over the devices.
///
/// All tests call `onie` by this function. It promises nothing, so that the many clauses of that call are read here alone,
/// for devices of any kind: the tests look at what there is.
pub(crate) fn answer<P: Plant, E: Eeprom, M: Media, S: Source, C: Sink, T: Sink>(
    alloc: Global,
    words: &[String],
    plant: &mut P,
    eeprom: &mut E,
    media: &mut M,
    script: &mut S,
    console: &mut C,
    trace: &mut T,
) -> Status {
    onie(alloc, words, plant, eeprom, media, script, console, trace)
}

/// What a line of words answers over the plant, and what the console took. The console's call of the number fails.
pub(crate) fn run(
    alloc: Global,
    plant: &mut SimPlant,
    line: &[&str],
    console_fails: u64,
) -> Result<(Status, MemSink), Fail> {
    let mut words = Vec::new(alloc);
    for word in line {
        words.push(String::from_str(alloc, word)?)?;
    }
    let mut eeprom = MemEeprom::new(alloc, b"", &[1])?;
    let mut media = MemMedia::new(alloc, &[1])?;
    let mut console = MemSink::new(alloc, &[console_fails])?;
    let mut script = MemSource::new(alloc, b"", &[1])?;
    let mut trace = MemSink::new(alloc, &[1])?;
    let status = answer(
        alloc,
        &words,
        plant,
        &mut eeprom,
        &mut media,
        &mut script,
        &mut console,
        &mut trace,
    );
    Ok((status, console))
}
