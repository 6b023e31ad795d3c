//! `onie`: makes the devices over the files of the folder that it runs in, and calls the top call.
//!
//! `disk.img` and `flash.img` are the disk and the flash, `eeprom.bin` is the identity EEPROM, the folders of `media/`
//! are the volumes of local media, `net.txt` is the script of the network, and the console is standard output. `net.trace`
//! takes what is sent; words that use it empty it first. The exit status is the number of the status that the top call
//! answers.
#![tactic(auto)]

use bd_file::{FileEeprom, FilePlant, FileSink, FileSource, FolderMedia, OutSink};
use onie_cli::{Status, is_traced, onie};
use std::env;
use std::io::{self, ErrorKind};
use std::process::ExitCode;
use std::rt::{Env, Files};

/// The words after the program's name. An error where one of them is no UTF-8, or memory runs out.
fn words(rt: &(impl Env + AllocGlobal)) -> io::Result<Vec<String>> {
    let mut words = Vec::new(rt.alloc());
    for word in env::args(rt)?.skip(1) {
        words.push(word)?;
    }
    Ok(words)
}

fn run(rt: &(impl Env + Files + Print + AllocGlobal + Clone + Drop)) -> Status {
    let alloc = rt.alloc();
    let words = match words(rt) {
        Ok(words) => words,
        Err(error) if error.kind() == ErrorKind::OutOfMemory => return Status::Memory,
        // A word that is no text is in no command, as no words are.
        Err(_) => Vec::new(alloc),
    };
    let mut plant = FilePlant::new(rt, "disk.img", "flash.img");
    let mut eeprom = FileEeprom::new(rt, "eeprom.bin");
    let mut media = FolderMedia::new(rt, "media");
    let mut script = FileSource::new(rt, "net.txt");
    let mut console = OutSink::new(rt);
    let mut trace = FileSink::new(rt, "net.trace");
    if is_traced(&words) {
        trace.make_anew();
    }
    onie(
        alloc,
        &words,
        &mut plant,
        &mut eeprom,
        &mut media,
        &mut script,
        &mut console,
        &mut trace,
    )
}

fn main(rt: HostRuntime) -> ExitCode {
    ExitCode::from(run(&rt).number())
}
