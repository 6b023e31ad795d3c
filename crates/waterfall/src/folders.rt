//! The folders of a TFTP server that an installer may lie in.

ghost use Rattle.std.specs.Prelude.{◌≡◌, ◌++◌, ◌∷◌, [], codes, map, take, IfOk, OnOk};
ghost use Rattle.waterfall.specs.Leases.{dashed, fronts};

use bd_dev::{Bytes, Memory, Names};
use bd_text::{Mac, V4};
use std::alloc::Global;

/// How many digits of the leased address name a folder, the longest first.
const SIZES: [usize; 8] = [8, 7, 6, 5, 4, 3, 2, 1];

/// A dash for a colon.
fn dash(byte: u8) -> u8
    ensures { result ≡ dashed byte }
{
    if byte == b':' { b'-' } else { byte }
}

/// The text with dashes for colons.
fn dashes(alloc: Global, text: &[u8]) -> Result<Bytes, Memory>
    ensures { IfOk result (λ folder. folder ≡ map dashed text.now) }
{
    let mut folder = Bytes::from_slice(alloc, b"")?;
    for byte in text {
        folder.push_slice(&[dash(*byte)])?;
    }
    Ok(folder)
}

/// The first so many bytes of the text, all where it has fewer.
fn front(text: &[u8], size: usize) -> &[u8]
    ensures { result.now ≡ take size text.now }
{
    if size < text.len() {
        &text[..size]
    } else {
        text
    }
}

/// Puts what stands before a name in the folder at the end.
fn push_folder(alloc: Global, fronts: &mut Names, folder: &[u8]) -> Result<(), Memory>
    ensures { OnOk result (fronts.new ≡ fronts.old ++ (folder.now ++ codes "/") ∷ []) }
{
    let mut front = Bytes::from_slice(alloc, folder)?;
    front.push_slice(b"/")?;
    fronts.push(front)?;
    Ok(())
}

/// What stands before a name in each folder, and in the root, for the interface with this Ethernet address and the leased
/// address.
pub(crate) fn fronts(alloc: Global, mac: Mac, address: V4) -> Result<Names, Memory>
    ensures { IfOk result (λ names. names ≡ fronts mac address) }
{
    let mut fronts = Names::new(alloc);
    let text = mac.text();
    let station = dashes(alloc, text.as_str().as_bytes())?;
    push_folder(alloc, &mut fronts, station.as_slice())?;
    let digits = hex::encode_upper(alloc, address.bytes)?;
    for size in SIZES {
        push_folder(alloc, &mut fronts, front(digits.as_bytes(), size))?;
    }
    fronts.push(Bytes::from_slice(alloc, b"")?)?;
    Ok(fronts)
}
