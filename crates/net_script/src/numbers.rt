//! The numbers and bytes of a line.

ghost use Rattle.std.specs.Prelude.{◌≡◌, ℕ, List, Ok, Err, Some, IfOk, IfErr, IfSome};
ghost use Rattle.std.specs.Fmt.{decimal};
ghost use Rattle.net_script.specs.Numbers.{IsHex, SpellsHex, SpellsNumber, SpellsRounds, WritesDecimal};
ghost use Rattle.net_script.specs.declared.fault.LineFault.TheVariants.{Bad};
ghost use Rattle.net_script.specs.declared.fault.ScriptKind.{ScriptKind};
ghost use Rattle.net_script.specs.declared.line.Rounds.{Rounds};

use crate::fault::{LineFault, ScriptKind};
use crate::line::Rounds;
use arrayvec::ArrayString;
use bd_dev::{Bytes, Memory};
use hex::FromHexError;
use itoa::Buffer;
use std::alloc::Global;

/// The highest round.
const LAST_ROUND: u32 = 99;

/// The latest time of a line, in milliseconds: a day.
const LATEST: u32 = 86_400_000;

/// The number in decimal digits.
fn decimal(number: u32) -> ArrayString<10>
    ensures { result.bytes ≡ decimal number }
{
    let mut buffer = Buffer::new();
    let mut text = ArrayString::new();
    text.push_str(buffer.format(number));
    text
}

/// The number that the digits write, which may stand behind a plus and zeros.
fn parsed(word: &[u8]) -> Option<u32>
    ensures { (n : ℕ) → WritesDecimal n word.now → result ≡ Some n }
{
    str::from_utf8(word).ok()?.parse().ok()
}

/// The number that is written so, without a sign and leading zeros.
fn written(word: &[u8]) -> Option<u32>
    ensures sound { IfSome result (λ n. WritesDecimal n word.now) }
    ensures only { (n : ℕ) → WritesDecimal n word.now → result ≡ Some n }
{
    let number = parsed(word)?;
    if decimal(number).as_str().as_bytes() != word {
        return None;
    }
    Some(number)
}

/// A number from `least` to `most` in decimal digits, without leading zeros.
fn number_in(word: &[u8], least: u32, most: u32) -> Result<u32, ScriptKind>
    ensures found { IfOk result (λ n. SpellsNumber least most n word.now) }
    ensures only { (n : ℕ) → SpellsNumber least most n word.now → result ≡ Ok n }
    ensures bad { IfErr result (λ kind. kind ≡ ScriptKind.Number) }
{
    match written(word) {
        Some(number) if least <= number && number <= most => Ok(number),
        _ => Err(ScriptKind::Number),
    }
}

/// A time, in milliseconds: 0 to 86,400,000.
pub(crate) fn time_in(word: &[u8]) -> Result<u32, ScriptKind>
    ensures found { IfOk result (λ n. SpellsNumber 0 86400000 n word.now) }
    ensures only { (n : ℕ) → SpellsNumber 0 86400000 n word.now → result ≡ Ok n }
    ensures bad { IfErr result (λ kind. kind ≡ ScriptKind.Number) }
{
    number_in(word, 0, LATEST)
}

/// A port: 1 to 65,535.
pub(crate) fn port_in(word: &[u8]) -> Result<u16, ScriptKind>
    ensures found { IfOk result (λ n. SpellsNumber 1 65535 n word.now) }
    ensures only { (n : ℕ) → SpellsNumber 1 65535 n word.now → result ≡ Ok n }
    ensures bad { IfErr result (λ kind. kind ≡ ScriptKind.Number) }
{
    let port = number_in(word, 1, 65_535)?;
    Ok(port as u16)
}

/// A round, 1 to 99, or `*` for all.
pub(crate) fn rounds_in(word: &[u8]) -> Result<Rounds, ScriptKind>
    ensures found { IfOk result (λ rounds. SpellsRounds rounds word.now) }
    ensures only { (rounds : Rounds) → SpellsRounds rounds word.now → result ≡ Ok rounds }
    ensures bad { IfErr result (λ kind. kind ≡ ScriptKind.Number) }
{
    if word == b"*".as_slice() {
        return Ok(Rounds::All);
    }
    let round = number_in(word, 1, LAST_ROUND)?;
    Ok(Rounds::One(round))
}

/// Bytes as an even number of hexadecimal digits, or `-` for none. `Hex` or `Memory`.
pub(crate) fn bytes_in(alloc: Global, word: &[u8]) -> Result<Bytes, LineFault>
    ensures found { IfOk result (λ bytes. SpellsHex bytes word.now) }
    ensures only { (bytes : List ℕ) → SpellsHex bytes word.now
        → IfOk result (λ r. r ≡ bytes) }
    ensures bad { (kind : ScriptKind) → result ≡ Err (Bad kind) → (kind ≡ ScriptKind.Hex) × ¬ IsHex word.now }
{
    if word == b"-".as_slice() {
        return Ok(Bytes::from_slice(alloc, b"")?);
    }
    match hex::decode(alloc, word) {
        Ok(bytes) => Ok(Bytes::from_slice(alloc, &bytes)?),
        Err(FromHexError::OutOfMemory) => Err(LineFault::Memory),
        Err(_) => Err(LineFault::Bad(ScriptKind::Hex)),
    }
}
