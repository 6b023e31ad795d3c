//! The lines.

ghost use Rattle.std.specs.Prelude.{◌≡◌, ◌++◌, IfOk, OnOk};
ghost use Rattle.std.specs.Fmt.{decimal};
ghost use Rattle.fetch_text.specs.Lines.{cause_of, found_line_of, miss_line_of, tftp_cause_of};

use bd_dev::{Bytes, Memory};
use find_fetch::Miss;
use itoa::Buffer;
use std::alloc::Global;
use tftp_client::TftpMiss;

/// Puts a decimal number at the end.
fn push_number(line: &mut Bytes, number: u64) -> Result<(), Memory>
    ensures { OnOk result (line.new ≡ line.old ++ decimal number) }
{
    let mut digits = Buffer::new();
    line.push_slice(digits.format(number).as_bytes())
}

/// Puts at the end why a transfer over TFTP gives no body.
fn push_tftp_cause(line: &mut Bytes, miss: TftpMiss) -> Result<(), Memory>
    ensures { OnOk result (line.new ≡ line.old ++ tftp_cause_of miss) }
{
    match miss {
        TftpMiss::Refused(code) => {
            line.push_slice(b"refused ")?;
            push_number(line, u64::from(code))
        }
        TftpMiss::Silent => line.push_slice(b"silent"),
        TftpMiss::TooLarge => line.push_slice(b"too large"),
        TftpMiss::Flooded => line.push_slice(b"flooded"),
    }
}

/// Puts at the end why there is no body.
fn push_cause(line: &mut Bytes, miss: Miss) -> Result<(), Memory>
    ensures { OnOk result (line.new ≡ line.old ++ cause_of miss) }
{
    match miss {
        Miss::NoFile => line.push_slice(b"no file"),
        Miss::Short { want, got } => {
            line.push_slice(b"short ")?;
            push_number(line, want)?;
            line.push_slice(b" ")?;
            push_number(line, got)
        }
        Miss::BadUrl => line.push_slice(b"bad url"),
        Miss::Scheme => line.push_slice(b"scheme"),
        Miss::NoServer => line.push_slice(b"no name server"),
        Miss::Tftp(miss) => push_tftp_cause(line, miss),
        Miss::TooLarge => line.push_slice(b"too large"),
    }
}

/// The line of a candidate that is shown so, of which there is no body: `miss SHOWN: CAUSE`. Or `Memory`.
pub fn miss_line(alloc: Global, shown: &[u8], miss: Miss) -> Result<Bytes, Memory>
    ensures { IfOk result (λ line. line ≡ miss_line_of shown.now miss) }
{
    let mut line = Bytes::from_slice(alloc, b"miss ")?;
    line.push_slice(shown)?;
    line.push_slice(b": ")?;
    push_cause(&mut line, miss)?;
    line.push_slice(b"\n")?;
    Ok(line)
}

/// The line of a candidate that is shown so, whose body has this length in bytes: `found SHOWN: LENGTH bytes`. Or
/// `Memory`.
pub fn found_line(alloc: Global, shown: &[u8], length: u64) -> Result<Bytes, Memory>
    ensures { IfOk result (λ line. line ≡ found_line_of shown.now length) }
{
    let mut line = Bytes::from_slice(alloc, b"found ")?;
    line.push_slice(shown)?;
    line.push_slice(b": ")?;
    push_number(&mut line, length)?;
    line.push_slice(b" bytes\n")?;
    Ok(line)
}
