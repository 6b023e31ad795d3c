//! Paths of files in volumes, and what the system says of them.

use std::alloc::{AllocError, Global};
use std::fs;
use std::io::{self, ErrorKind};
use std::rt::Files;

/// The path of a file in a volume of a folder. None for a name that no file can have: one that is
/// empty, `.` or `..`, or has a `/`, a 00 byte or bytes that are no UTF-8.
pub(crate) fn path_of(
    alloc: Global,
    folder: &str,
    volume: &[u8],
    name: &[u8],
) -> Result<Option<String>, AllocError> {
    match (entry_name(volume), entry_name(name)) {
        (Some(volume), Some(name)) => Ok(Some(format!(in alloc; "{folder}/{volume}/{name}")?)),
        _ => Ok(None),
    }
}

fn entry_name(bytes: &[u8]) -> Option<&str> {
    let name = std::str::from_utf8(bytes).ok()?;
    if name.is_empty() || name == "." || name == ".." || name.contains(['/', '\0']) {
        return None;
    }
    Some(name)
}

/// What the system answered, or None where its error says that there is no such file.
pub(crate) fn present<T>(answer: io::Result<T>) -> io::Result<Option<T>> {
    match answer {
        Ok(value) => Ok(Some(value)),
        Err(error) if means_absent(error.kind()) => Ok(None),
        Err(error) => Err(error),
    }
}

// Nothing has the name, it is under what is no folder, its link leads nowhere, or the file system
// refuses it, as one that is too long.
fn means_absent(kind: ErrorKind) -> bool {
    matches!(
        kind,
        ErrorKind::NotFound
            | ErrorKind::NotADirectory
            | ErrorKind::FilesystemLoop
            | ErrorKind::InvalidInput
            | ErrorKind::InvalidFilename
    )
}

/// The length of a regular file. An error where there is none: opening a FIFO would wait for its other end, so only a
/// regular file is opened.
pub(crate) fn regular_length<R: Files>(rt: &R, path: &str) -> io::Result<u64> {
    let data = fs::metadata(rt, path)?;
    if data.is_file() {
        return Ok(data.len());
    }
    Err(io::Error::from(ErrorKind::InvalidInput))
}
