//! Calls of the system, made again where a signal interrupted them: such a call has done nothing yet.

ghost use Rattle.std.specs.Prelude.{◌≤◌, ◌<◌, IfOk, length};

use std::fs::OpenFile;
use std::io::{self, ErrorKind, Read, Write};

/// One read, which gives how many bytes it put at the front of `out`: 0 for a nonempty `out` only at the end.
pub(crate) fn read_some<F: Read>(file: &mut F, out: &mut [u8]) -> io::Result<usize>
    ensures { IfOk result (λ n. n ≤ length out.new) }
{
    for _ in 0..u64::MAX {
        match file.read(out) {
            Ok(count) => return Ok(count),
            Err(error) if error.kind() == ErrorKind::Interrupted => {}
            Err(error) => return Err(error),
        }
    }
    Err(io::Error::from(ErrorKind::Interrupted))
}

/// One write, which gives how many bytes it took. To take nothing of a nonempty piece is an error.
pub(crate) fn write_some<F: Write>(file: &mut F, bytes: &[u8]) -> io::Result<usize>
    ensures bound { IfOk result (λ n. n ≤ length bytes.now) }
    ensures moves { IfOk result (λ n. 0 < length bytes.now → 0 < n) }
{
    if bytes.is_empty() {
        return Ok(0);
    }
    for _ in 0..u64::MAX {
        match file.write(bytes) {
            Ok(0) => return Err(io::Error::from(ErrorKind::WriteZero)),
            Ok(taken) => return Ok(taken),
            Err(error) if error.kind() == ErrorKind::Interrupted => {}
            Err(error) => return Err(error),
        }
    }
    Err(io::Error::from(ErrorKind::Interrupted))
}

/// Waits until the disk has all that was written to the file.
pub(crate) fn sync<F: OpenFile>(file: &F) -> io::Result<()> {
    for _ in 0..u64::MAX {
        match file.sync_data() {
            Ok(()) => return Ok(()),
            Err(error) if error.kind() == ErrorKind::Interrupted => {}
            Err(error) => return Err(error),
        }
    }
    Err(io::Error::from(ErrorKind::Interrupted))
}
