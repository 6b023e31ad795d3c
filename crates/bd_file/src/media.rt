//! Media in a folder: each folder in it is a volume, and each regular file in that is a file.

ghost use Rattle.std.specs.Prelude.{◌≡◌, ◌≤◌, None, IfOk, length};

use crate::calls::read_some;
use crate::faults::FaultCount;
use crate::paths::{path_of, present};
use bd_dev::{Bytes, DevFault, Failed, Media, Memory, Names};
use std::alloc::Global;
use std::fs;
use std::io::{self, ErrorKind, Seek, SeekFrom};
use std::marker::Model;
use std::path::Path;
use std::rt::Files;

/// The media that a folder holds. Links are followed. A clause sees them as their count of faults.
#[derive(Drop)]
pub struct FolderMedia<'a, R> {
    rt: &'a R,
    path: &'a str,
    faults: FaultCount,
}

impl<'a, R> Model for FolderMedia<'a, R> {
    ghost use Rattle.std.specs.Prelude.{ℕ};

    ghost Value = { ℕ };

    ghost view = { λ m. m.faults };
}

impl<'a, R> FolderMedia<'a, R> {
    /// The media in the folder of this path. Nothing is opened and no fault counted yet.
    pub fn new(rt: &'a R, path: &'a str) -> FolderMedia<'a, R>
        ensures { result ≡ 0 }
    {
        FolderMedia {
            rt,
            path,
            faults: FaultCount::new(),
        }
    }
}

impl<'a, R: Files + AllocGlobal + Clone + Drop> Media for FolderMedia<'a, R> {
    ghost content = { λ _. None };

    ghost faults = { λ faults. faults };

    /// The folders in the folder, in order of the bytes of their names. A missing folder is a
    /// fault.
    fn volumes(&mut self, alloc: Global) -> Result<Names, DevFault> {
        match folders_in(self.rt, alloc, self.path) {
            Ok(folders) => Ok(names_of(alloc, &folders)?),
            Err(error) => {
                if error.kind() == ErrorKind::OutOfMemory {
                    return Err(DevFault::Memory);
                }
                Err(DevFault::from(self.faults.count()))
            }
        }
    }

    /// The length of a regular file. Want of memory for the path is a fault too.
    fn find(&mut self, volume: &[u8], name: &[u8]) -> Result<Option<u64>, Failed> {
        let found = find_file(self.rt, self.path, volume, name);
        self.faults.counted(found)
    }

    /// One read of a regular file. Want of memory for the path is a fault too.
    fn read(
        &mut self,
        volume: &[u8],
        name: &[u8],
        at: u64,
        out: &mut [u8],
    ) -> Result<usize, Failed> {
        let given = read_file(self.rt, self.path, volume, name, at, out);
        self.faults.counted(given)
    }
}

fn folders_in<R: Files + AllocGlobal + Clone + Drop>(
    rt: &R,
    alloc: Global,
    path: &str,
) -> io::Result<Vec<String>> {
    let mut folders: Vec<String> = Vec::new(alloc);
    for entry in fs::read_dir(rt, path)? {
        let entry = match entry {
            Ok(entry) => entry,
            // A name that is no UTF-8: nothing could find a file there.
            Err(error) if error.kind() == ErrorKind::InvalidFilename => continue,
            Err(error) => return Err(error),
        };
        if is_folder(rt, entry.path())? {
            folders.push(String::from_str(alloc, entry.file_name())?)?;
        }
    }
    folders.sort()?;
    Ok(folders)
}

// An entry that is gone by now, and a link that leads nowhere, is no folder.
fn is_folder<R: Files>(rt: &R, path: Path<'_>) -> io::Result<bool> {
    match present(fs::metadata(rt, path))? {
        Some(data) => Ok(data.is_dir()),
        None => Ok(false),
    }
}

fn names_of(alloc: Global, texts: &[String]) -> Result<Names, Memory> {
    let mut names = Names::new(alloc);
    for text in texts {
        names.push(Bytes::from_slice(alloc, text.as_bytes())?)?;
    }
    Ok(names)
}

fn find_file<R: Files + AllocGlobal>(
    rt: &R,
    folder: &str,
    volume: &[u8],
    name: &[u8],
) -> io::Result<Option<u64>> {
    match path_of(rt.alloc(), folder, volume, name)? {
        Some(path) => length_of(rt, path.as_str()),
        None => Ok(None),
    }
}

// The length of a regular file, or None where there is none.
fn length_of<R: Files>(rt: &R, path: &str) -> io::Result<Option<u64>> {
    match present(fs::metadata(rt, path))? {
        Some(data) => Ok(data.is_file().then_some(data.len())),
        None => Ok(None),
    }
}

fn read_file<R: Files + AllocGlobal>(
    rt: &R,
    folder: &str,
    volume: &[u8],
    name: &[u8],
    at: u64,
    out: &mut [u8],
) -> io::Result<usize>
    ensures { IfOk result (λ n. n ≤ length out.new) }
{
    match path_of(rt.alloc(), folder, volume, name)? {
        Some(path) => read_piece(rt, path.as_str(), at, out),
        None => Ok(0),
    }
}

// Opening a FIFO would wait for a writer, so what is no regular file is not opened.
fn read_piece<R: Files>(rt: &R, path: &str, at: u64, out: &mut [u8]) -> io::Result<usize>
    ensures { IfOk result (λ n. n ≤ length out.new) }
{
    let length = length_of(rt, path)?.unwrap_or(0);
    if at >= length {
        return Ok(0);
    }
    let Some(mut file) = present(fs::open(rt, path))? else {
        return Ok(0);
    };
    file.seek(SeekFrom::Start(at))?;
    read_some(&mut file, out)
}
