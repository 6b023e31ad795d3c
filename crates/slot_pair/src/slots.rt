//! The steps of a put and of a format.

ghost use Rattle.std.specs.Prelude.{◌≡◌, ◌⊎◌, ◌<◌, ◌≤◌, ◌+◌, ◌*◌, ◌^◌, Bool, None, OnOk, false, length};
ghost use Rattle.bd_dev.specs.Faults.{HasCause};
ghost use Rattle.bd_dev.specs.Plant.{IsSynced};
ghost use Rattle.bd_dev.specs.Runs.{LeavesOnly, WritesAtMost};
ghost use Rattle.bd_dev.specs.Touching.{Touches};
ghost use Rattle.slot_pair.specs.Body.{IsSpelled, used_sectors};
ghost use Rattle.slot_pair.specs.Putting.{IsEither, stored};
ghost use Rattle.slot_pair.specs.Formatting.{IsBesideFormat, IsShut, LeavesAlone};
ghost use Rattle.slot_model.specs.Slots.{current, is_open_gate, pair_sectors, slot, slot_lba};

use crate::body::write_body;
use crate::choice::is_second;
use crate::gates::{close_gate, open_gate};
use crate::head::slot_number;
use bd_dev::{Area, Failed, Plant};

/// The sector of a slot's gate, in the pair at a base: the first slot's, or the second's.
pub(crate) fn slot_gate(base: u64, sectors: usize, second: bool) -> u64
    requires { base + pair_sectors sectors < 2 ^ 64 }
    ensures { result ≡ slot_lba sectors base second }
{
    if second {
        base + sectors as u64 + 1
    } else {
        base
    }
}

/// Fills a slot whose gate reads closed: its body, and then its gate, each synced.
pub(crate) fn fill_slot<P: Plant>(
    plant: &mut P,
    area: Area,
    gate: u64,
    sectors: usize,
    number: u64,
    content: &[u8],
) -> Result<(), Failed>
    requires few { sectors ≤ 65536 }
    requires room { gate + 1 + sectors ≤ (P.view plant.old).size area }
    requires short { 12 + length content.now ≤ 512 * sectors }
    requires synced { (P.view plant.old).tells → IsSynced (P.view plant.old) area }
    requires closed { (P.view plant.old).tells → is_open_gate ((P.view plant.old).reads area) gate ≡ false }
    ensures filled { (P.view plant.old).tells → OnOk result
        (slot sectors ((P.view plant.new).reads area) gate ≡ stored number content.now) }
    ensures bytes { (P.view plant.old).tells → OnOk result
        (IsSpelled ((P.view plant.new).reads area) gate number content.now) }
    ensures synced { (P.view plant.old).tells → OnOk result (IsSynced (P.view plant.new) area) }
    ensures crash { (P.view plant.old).tells → LeavesOnly (P.view plant.old) (P.view plant.new)
        (λ c. IsEither None (stored number content.now) (slot sectors (c area) gate)) }
    ensures touches { Touches area gate (sectors + 1) (P.view plant.old) (P.view plant.new) }
    ensures few { Touches area gate (used_sectors (length content.now) + 1) (P.view plant.old) (P.view plant.new) }
    ensures wears { (P.view plant.old).tells
        → WritesAtMost area (used_sectors (length content.now) + 1) (P.view plant.old) (P.view plant.new) }
    ensures cause { HasCause (P.view plant.old).faults (P.view plant.new).faults result }
{
    write_body(plant, area, gate, sectors, number, content)?;
    open_gate(plant, area, gate)?;
    Ok(())
}

/// Closes both slots of a pair, each synced, the current one last: so no crash leaves an older content alone.
pub(crate) fn close_slots<P: Plant>(
    plant: &mut P,
    area: Area,
    base: u64,
    sectors: usize,
) -> Result<(), Failed>
    requires some { 0 < sectors }
    requires few { sectors ≤ 65536 }
    requires room { base + pair_sectors sectors ≤ (P.view plant.old).size area }
    requires synced { (P.view plant.old).tells → IsSynced (P.view plant.old) area }
    ensures closed { (P.view plant.old).tells → OnOk result ((second : Bool)
        → is_open_gate ((P.view plant.new).reads area) (slot_lba sectors base second) ≡ false) }
    ensures synced { (P.view plant.old).tells → OnOk result (IsSynced (P.view plant.new) area) }
    ensures crash { (P.view plant.old).tells → LeavesOnly (P.view plant.old) (P.view plant.new)
        (λ c. IsEither None (current sectors ((P.view plant.old).reads area) base) (current sectors (c area) base)) }
    ensures shut { (P.view plant.old).tells → OnOk result ((second : Bool) → IsShut
        ((P.view plant.old).reads area) ((P.view plant.new).reads area) (slot_lba sectors base second)) }
    ensures touches { Touches area base (pair_sectors sectors) (P.view plant.old) (P.view plant.new) }
    ensures few { (P.view plant.old).tells
        → LeavesAlone (IsBesideFormat sectors area base 0) (P.view plant.old) (P.view plant.new) }
    ensures wears { (P.view plant.old).tells → WritesAtMost area 2 (P.view plant.old) (P.view plant.new) }
    ensures cause { HasCause (P.view plant.old).faults (P.view plant.new).faults result }
{
    let first = slot_number(plant, area, base, sectors)?;
    let other = slot_number(plant, area, base + sectors as u64 + 1, sectors)?;
    let second = is_second(first, other);
    close_gate(plant, area, slot_gate(base, sectors, !second))?;
    close_gate(plant, area, slot_gate(base, sectors, second))?;
    Ok(())
}
