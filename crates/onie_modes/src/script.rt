//! The network that a script makes.

ghost use Rattle.std.specs.Prelude.{◌≡◌, ◌≤◌, ℕ, List, [], length, take, Err, IfOk, OnOk};
ghost use Rattle.std.specs.Option.{ForSome};
ghost use Rattle.bd_dev.specs.Faults.{HasCauseOr};
ghost use Rattle.bd_dev.specs.Source.{emptied};
ghost use Rattle.onie_modes.specs.Script.{IsRefusedScript, IsWrongScript, Plays, net_status};

use crate::exit::Status;
use bd_dev::{Bytes, DevFault, Media, Source, read_source};
use bd_text::Mac;
use net_script::{ScriptFault, ScriptKind, ScriptNet, read_script};
use std::alloc::Global;

/// The most bytes of a script.
const LONGEST: usize = 16_777_216;

/// Why a script makes no network.
#[derive(Clone, Copy, Debug, PartialEq, Eq)]
pub enum NetFault {
    /// Its source failed, and counted it.
    Source,
    /// The media failed, and counted it.
    Media,
    /// There is no memory.
    Memory,
    /// This is its first wrong line, counted from 1, or 0 for a script that is too long.
    Bad { line: u32, kind: ScriptKind },
}

impl NetFault {
    /// The status of a call that ends for it.
    pub fn status(self) -> Status
        ensures { result ≡ net_status self }
    {
        match self {
            NetFault::Source => Status::SourceFault,
            NetFault::Media => Status::MediaFault,
            NetFault::Memory => Status::Memory,
            NetFault::Bad { line, kind } => Status::BadScript { line, kind },
        }
    }
}

impl From<ScriptFault> for NetFault {
    ghost use Rattle.std.specs.Prelude.{◌≡◌};
    ghost use Rattle.onie_modes.specs.Script.{net_fault_of};

    ghost from_gives = { λ fault e. e ≡ net_fault_of fault };

    fn from(fault: ScriptFault) -> NetFault {
        match fault {
            ScriptFault::Bad { line, kind } => NetFault::Bad { line, kind },
            ScriptFault::Media => NetFault::Media,
            ScriptFault::Memory => NetFault::Memory,
        }
    }
}

/// What the source gives: all of it, or its first 16,777,217 bytes where there are more.
fn load_script<S: Source>(alloc: Global, script: &mut S) -> Result<Bytes, NetFault>
    ensures front { IfOk result (λ text. ForSome (S.left script.old) (λ left. text ≡ take 16777217 left)) }
    ensures read_out { IfOk result (λ text. length text ≤ 16777216 → S.left script.new ≡ emptied (S.left script.old)) }
    ensures refused { (line : ℕ) (kind : ScriptKind) → result ≡ Err (NetFault.Bad line kind) → ⊥ }
    ensures no_media { result ≡ Err NetFault.Media → ⊥ }
    ensures cause { HasCauseOr NetFault.Source (S.faults script.old) (S.faults script.new) result }
{
    match read_source(alloc, script, LONGEST + 1) {
        Ok(text) => Ok(text),
        Err(DevFault::Failed) => Err(NetFault::Source),
        Err(DevFault::Memory) => Err(NetFault::Memory),
    }
}

/// The network that the script makes, whose files are read from the media; `mac` is the board's address. The script's
/// wrong lines are found before the media are asked for its files.
pub fn open_net<S: Source, M: Media>(
    alloc: Global,
    script: &mut S,
    mac: Mac,
    media: &mut M,
) -> Result<ScriptNet, NetFault>
    ensures begins { IfOk result (λ net. (net.time ≡ 0) × (net.flows ≡ [])) }
    ensures plays { IfOk result (λ net. ForSome (S.left script.old) (λ text. Plays text (M.content media.old) net.rows)) }
    ensures read_out { OnOk result (S.left script.new ≡ emptied (S.left script.old)) }
    ensures refused { (line : ℕ) (kind : ScriptKind) → result ≡ Err (NetFault.Bad line kind)
        → IsRefusedScript (S.left script.old) (M.content media.old) line kind }
    ensures asked { result ≡ Err NetFault.Media → ForSome (S.left script.old) (λ text. (line : ℕ) (kind : ScriptKind)
        → ¬ IsWrongScript text line kind) }
    ensures kept { M.content media.new ≡ M.content media.old }
    ensures source { HasCauseOr NetFault.Source (S.faults script.old) (S.faults script.new) result }
    ensures media { HasCauseOr NetFault.Media (M.faults media.old) (M.faults media.new) result }
{
    let text = load_script(alloc, script)?;
    let lines = read_script(alloc, text.as_slice())?;
    Ok(ScriptNet::new(alloc, lines, mac, media)?)
}
