//! Which board the fields identify.

ghost use Rattle.std.specs.Prelude.{◌≡◌, ◌<◌, ◌≤◌, IfOk, IfErr, IsOkAnd, length, EachIndex, slice_index};
ghost use Rattle.tlvinfo.specs.Identity.{Board, Identifies, Lacks};
ghost use Rattle.tlvinfo.specs.IdentityView.{board_of};

use crate::board::Identity;
use crate::codes::{BASE_MAC, PLATFORM};
use crate::fault::IdentFault;
use crate::info::Info;
use crate::platform::{LONGEST, platform};
use arrayvec::ArrayString;
use bd_text::Mac;

/// A text of the platform alphabet, kept in place.
fn kept(text: &[u8]) -> ArrayString<200>
    requires short { length text.now ≤ 200 }
    requires ascii { EachIndex text.now (λ i. slice_index text.now i < 128) }
    ensures { result.bytes ≡ text.now }
{
    let mut copy = ArrayString::new();
    for byte in text {
        copy.push(char::from(*byte));
    }
    copy
}

/// The board that the fields identify: the platform name of code 28 with its parts, and the address of code 24.
///
/// Takes no memory. The refusals come in the order of [`IdentFault`], each where it is the first that applies.
pub fn identity(info: &Info) -> Result<Identity, IdentFault>
    ensures found { IfOk result (λ i. Identifies info.now (board_of i)) }
    ensures only { (board : Board) → Identifies info.now board → IsOkAnd result (λ i. board_of i ≡ board) }
    // Which of them: the first that applies.
    ensures lacks { IfErr result (λ fault. Lacks fault info.now) }
{
    let name = info.get(PLATFORM).ok_or(IdentFault::NoPlatform)?;
    let parts = platform(name).ok_or(IdentFault::Platform)?;
    let address = info.get(BASE_MAC).ok_or(IdentFault::NoMac)?;
    Ok(Identity {
        platform: kept(name),
        arch: kept(parts.arch),
        machine: kept(parts.machine),
        revision: kept(parts.revision),
        mac: Mac {
            bytes: six(address),
        },
    })
}

fn six(bytes: &[u8]) -> [u8; 6]
    requires { length bytes.now ≡ 6 }
    ensures { result ≡ bytes.now }
{
    [bytes[0], bytes[1], bytes[2], bytes[3], bytes[4], bytes[5]]
}
