//! A script.

ghost use Rattle.std.specs.Prelude.{◌≡◌, ◌≢◌, ◌⊎◌, ◌≤◌, ◌<◌, ◌^◌, ◌++◌, ◌∷◌, [], ℕ, List, Result, length, false, Ok, Err, IfOk, OnOk, IsTrue};
ghost use Rattle.net_script.specs.Faults.{IsLineFault};
ghost use Rattle.net_script.specs.Lines.{MayFollow, Says, has_flow, ifaces_of};
ghost use Rattle.net_script.specs.Script.{Answers, Fault, IsKept, Reads, ReadsScript, Takes, is_skipped, texts_of};
ghost use Rattle.net_script.specs.declared.fault.ScriptFault.TheVariants.{Bad, Media, Memory as ScriptMemory};
ghost use Rattle.net_script.specs.declared.fault.ScriptKind.{ScriptKind};
ghost use Rattle.net_script.specs.declared.line.Line.{Line};
ghost use Rattle.net_script.specs.declared.line.Numbered.{Numbered};

use crate::fault::{LineFault, ScriptFault, ScriptKind};
use crate::line::{Line, Numbered};
use crate::line_reader::read_line;
use bd_dev::{Bytes, Memory};
use std::alloc::Global;
use std::marker::Model;

/// The longest script, in bytes.
const LONGEST: usize = 16_777_216;

/// The lines of a script that say something, in order.
#[derive(Drop)]
pub struct Script {
    pub(crate) lines: Vec<Numbered>,
    // The names of the `iface` lines.
    ifaces: Vec<Bytes>,
}

impl Model for Script {
    ghost use Rattle.std.specs.Prelude.{List, ◌≡◌, ◌≤◌, length};
    ghost use Rattle.net_script.specs.Lines.{ifaces_of};
    ghost use Rattle.net_script.specs.declared.line.Numbered.{Numbered};

    ghost Value = { List Numbered };

    ghost view = { λ s. s.lines.items };

    ghost invariant = { λ s. (s.ifaces.items ≡ ifaces_of s.lines.items) × (length s.ifaces.items ≤ 8) };
}

impl Script {
    /// The names of the interfaces, in order: at most 8.
    pub fn ifaces(&self) -> &[Bytes]
        ensures names { result.now ≡ ifaces_of self.now }
        ensures few { length result.now ≤ 8 }
    {
        &self.ifaces
    }
}

/// Whether a line says nothing: it is empty, or begins with `#`.
fn is_skipped(line: &[u8]) -> bool
    ensures { result ≡ is_skipped line.now }
{
    line.is_empty() || line[0] == b'#'
}

/// The lines that were read so far.
#[derive(Drop)]
struct Reading {
    lines: Vec<Numbered>,
    ifaces: Vec<Bytes>,
    has_flow: bool,
}

impl Reading {
    fn new(alloc: Global) -> Reading
        ensures lines { result.lines.items ≡ [] }
        ensures kept { IsKept [] result.ifaces.items result.has_flow }
    {
        Reading {
            lines: Vec::new(alloc),
            ifaces: Vec::new(alloc),
            has_flow: false,
        }
    }

    /// Notes the name of an interface, or that there is a flow.
    fn note(&mut self, alloc: Global, line: &Line) -> Result<(), Memory>
        ensures lines { self.new.lines.items ≡ self.old.lines.items }
        ensures kept { (number : ℕ) → IsKept self.old.lines.items self.old.ifaces.items self.old.has_flow
            → MayFollow self.old.ifaces.items self.old.has_flow line.now
            → OnOk result (IsKept (self.old.lines.items ++ record { number = number; line = line.now } ∷ [])
            self.new.ifaces.items self.new.has_flow) }
    {
        match line {
            Line::Iface(name) => {
                let name = Bytes::from_slice(alloc, name.as_slice())?;
                self.ifaces.push(name)?;
            }
            Line::Flow { .. } => self.has_flow = true,
            _ => {}
        }
        Ok(())
    }

    /// Puts a line at the end.
    fn push(&mut self, alloc: Global, number: u32, line: Line) -> Result<(), Memory>
        requires kept { IsKept self.old.lines.items self.old.ifaces.items self.old.has_flow }
        requires follows { MayFollow self.old.ifaces.items self.old.has_flow line }
        ensures pushed { OnOk result (self.new.lines.items
            ≡ self.old.lines.items ++ record { number = number; line = line } ∷ []) }
        ensures kept { OnOk result (IsKept self.new.lines.items self.new.ifaces.items self.new.has_flow) }
    {
        self.note(alloc, &line)?;
        self.lines.push(Numbered { number, line })?;
        Ok(())
    }

    /// Reads the next line, of this number.
    fn read(&mut self, alloc: Global, number: u32, text: &[u8]) -> Result<(), ScriptFault>
        requires kept { IsKept self.old.lines.items self.old.ifaces.items self.old.has_flow }
        ensures takes { OnOk result (Takes self.old.lines.items number text.now self.new.lines.items) }
        ensures kept { OnOk result (IsKept self.new.lines.items self.new.ifaces.items self.new.has_flow) }
        ensures only { (line : Line) → is_skipped text.now ≡ false
            → Says (ifaces_of self.old.lines.items) (has_flow self.old.lines.items) text.now line
            → OnOk result (self.new.lines.items
            ≡ self.old.lines.items ++ record { number = number; line = line } ∷ []) }
        ensures bad { (at : ℕ) (kind : ScriptKind) → result ≡ Err (Bad at kind)
            → (at ≡ number) × (is_skipped text.now ≡ false)
            × IsLineFault (ifaces_of self.old.lines.items) (has_flow self.old.lines.items) text.now kind }
        ensures no_media { result ≢ Err Media }
    {
        if is_skipped(text) {
            return Ok(());
        }
        match read_line(alloc, &self.ifaces, self.has_flow, text) {
            Ok(line) => {
                self.push(alloc, number, line)?;
                Ok(())
            }
            Err(LineFault::Bad(kind)) => Err(ScriptFault::Bad { line: number, kind }),
            Err(LineFault::Memory) => Err(ScriptFault::Memory),
        }
    }
}

/// Reads the lines of a text.
fn read_lines(alloc: Global, text: &[u8]) -> Result<Script, ScriptFault>
    requires { length text.now ≤ 16777216 }
    ensures found { IfOk result (λ script. Reads [] 1 (texts_of text.now) (Ok script)) }
    ensures bad { (at : ℕ) (kind : ScriptKind) → result ≡ Err (Bad at kind)
        → Reads [] 1 (texts_of text.now) (Err (record { line = at; kind = kind })) }
    ensures only { (answer : Result (List Numbered) Fault) → Reads [] 1 (texts_of text.now) answer
        → Answers result answer }
    ensures no_media { result ≢ Err Media }
{
    let mut reading = Reading::new(alloc);
    let mut number = 0;
    for line in text.split(|byte| *byte == b'\n') {
        number += 1;
        reading.read(alloc, number, line)?;
    }
    Ok(Script {
        lines: reading.lines,
        ifaces: reading.ifaces,
    })
}

/// Reads a script: lines that end with LF, which the last may lack. Empty lines, and lines that begin with `#`, say
/// nothing. Answers the first wrong line, counted from 1, and what is wrong with it; a script of more than 16,777,216
/// bytes is `TooLong`, as line 0. Or `Memory`, and never `Media`.
pub fn read_script(alloc: Global, text: &[u8]) -> Result<Script, ScriptFault>
    ensures found { IfOk result (λ script. ReadsScript text.now (Ok script)) }
    ensures bad { (at : ℕ) (kind : ScriptKind) → result ≡ Err (Bad at kind)
        → ReadsScript text.now (Err (record { line = at; kind = kind })) }

    // What is read so, and nothing else, is answered.
    ensures only { (answer : Result (List Numbered) Fault) → ReadsScript text.now answer → Answers result answer }
    ensures no_media { result ≢ Err Media }
{
    if text.len() > LONGEST {
        return Err(ScriptFault::Bad {
            line: 0,
            kind: ScriptKind::TooLong,
        });
    }
    let script = read_lines(alloc, text)?;
    Ok(script)
}
