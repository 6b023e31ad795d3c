//! `sh_probe FILE`: reads a script, and prints the first fault in it with its line, or that there is none. It is for authors
//! of installers, whose payload it passes over.
//!
//! The exit status is 0 where the script is a program, 1 where it has a fault, 2 for other words than one path, and 3 where
//! the file can't be read, the script is too long, or memory runs out.
#![tactic(auto)]

ghost use Rattle.std.specs.Prelude.{◌≡◌, IfOk};
ghost use Rattle.std.specs.String.{string_bytes};
ghost use Rattle.sh_probe.specs.Telling.{kind_text, fault_text, no_fault, Tells};

use bd_dev::{read_source, write_all};
use bd_file::{FileSource, OutSink};
use sh_parser::{SyntaxFault, SyntaxKind, parse};
use sh_script::split;
use std::alloc::{AllocError, Global};
use std::env;
use std::process::ExitCode;
use std::rt::{Env, Files};

/// How a run that reads no script ends.
enum Stop {
    Usage,
    Failed,
}

/// The most bytes of an installer that are read.
const ENOUGH: usize = 16_777_216;

/// The longest script.
const LONGEST: usize = 1_048_576;

/// The path, where the words after the program's name are just one.
fn path(rt: &(impl Env + AllocGlobal)) -> Result<String, Stop> {
    let Ok(words) = env::args(rt) else {
        return Err(Stop::Usage);
    };
    let mut words = words.skip(1);
    match (words.next(), words.next()) {
        (Some(path), None) => Ok(path),
        _ => Err(Stop::Usage),
    }
}

/// What is said of a fault of this kind.
fn named(kind: SyntaxKind) -> &'static str
    ensures { result.now ≡ kind_text kind }
{
    match kind {
        SyntaxKind::Unexpected => "unexpected",
        SyntaxKind::Unclosed => "unclosed",
        SyntaxKind::LeftOut => "left out",
        SyntaxKind::Deep => "too deep",
        SyntaxKind::Nul => "a 00 byte",
    }
}

/// The line that tells of a fault.
fn fault_line(alloc: Global, line: u64, kind: SyntaxKind) -> Result<String, AllocError>
    ensures { IfOk result (λ text. string_bytes text ≡ fault_text line kind) }
{
    format!(in alloc; "line {line}: {}\n", named(kind))
}

fn sound_line(alloc: Global) -> Result<String, AllocError>
    ensures { IfOk result (λ text. string_bytes text ≡ no_fault) }
{
    format!(in alloc; "no fault\n")
}

/// The line that is printed of an installer, and whether its script is a program.
fn judged(alloc: Global, installer: &[u8]) -> Result<(String, bool), Stop>
    ensures { IfOk result (λ told. Tells installer.now (string_bytes told.0) told.1) }
{
    let (script, _payload) = split(installer);
    if script.len() > LONGEST {
        return Err(Stop::Failed);
    }
    let (line, sound) = match parse(alloc, script) {
        Ok(_program) => (sound_line(alloc), true),
        Err(SyntaxFault::Bad { line, kind }) => (fault_line(alloc, line, kind), false),
        Err(SyntaxFault::Memory) => return Err(Stop::Failed),
    };
    match line {
        Ok(line) => Ok((line, sound)),
        Err(_) => Err(Stop::Failed),
    }
}

fn run(rt: &(impl Env + Files + Print + AllocGlobal + Clone + Drop)) -> Result<bool, Stop> {
    let alloc = rt.alloc();
    let path = path(rt)?;
    let Ok(installer) = read_source(alloc, &mut FileSource::new(rt, path.as_str()), ENOUGH) else {
        return Err(Stop::Failed);
    };
    let (line, sound) = judged(alloc, installer.as_slice())?;
    match write_all(&mut OutSink::new(rt), line.as_bytes()) {
        Ok(()) => Ok(sound),
        Err(_) => Err(Stop::Failed),
    }
}

fn main(rt: HostRuntime) -> ExitCode {
    ExitCode::from(match run(&rt) {
        Ok(true) => 0,
        Ok(false) => 1,
        Err(Stop::Usage) => 2,
        Err(Stop::Failed) => 3,
    })
}
