//! Lines in parts.

ghost use Rattle.std.specs.Prelude.{◌≡◌, ◌≤◌, OnErr, OnOk};
ghost use Rattle.std.specs.List.{flat_map};
ghost use Rattle.bd_dev.specs.Faults.{HasCause};
ghost use Rattle.bd_dev.specs.Sink.{Appends, AppendsFront};

use bd_dev::{Failed, Sink, write_all};

/// Writes the parts one after the other. `Failed` where the sink fails, which then took a front of them.
pub(crate) fn write_parts<C: Sink>(console: &mut C, parts: &[&[u8]]) -> Result<(), Failed>
    ensures written { OnOk result (Appends (C.taken console.old) (C.taken console.new) (flat_map (λ part. part.now) parts.now)) }
    ensures front { OnErr result (AppendsFront (C.taken console.old) (C.taken console.new) (flat_map (λ part. part.now) parts.now)) }
    ensures cause { HasCause (C.faults console.old) (C.faults console.new) result }
{
    for part in parts {
        write_all(console, part)?;
    }
    Ok(())
}
