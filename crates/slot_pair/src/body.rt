//! Bodies: their bytes, and their writing.

ghost use Rattle.std.specs.Prelude.{◌≡◌, ◌+◌, ◌*◌, ◌++◌, ◌<◌, ◌≤◌, ◌^◌, ℕ, OnOk, length, slice_index};
ghost use Rattle.bd_dev.specs.Faults.{HasCause};
ghost use Rattle.bd_dev.specs.Plant.{IsSynced};
ghost use Rattle.bd_dev.specs.Runs.{WritesAtMost};
ghost use Rattle.bd_dev.specs.Touching.{Touches};
ghost use Rattle.slot_pair.specs.Body.{Written, body_bytes, body_head, used_sectors};
ghost use Rattle.slot_pair.specs.Putting.{stored};
ghost use Rattle.slot_model.specs.Slots.{body};

use bd_dev::{Area, Failed, Plant, sync_area, write_sectors};
use byteorder::{ByteOrder, LittleEndian};

/// What stands before the content of a body: its number and its length in bytes.
fn body_head(number: u64, length: u32) -> [u8; 12]
    ensures { result ≡ body_head number length }
{
    let mut head = [0; 12];
    LittleEndian::write_u64(&mut head, number);
    LittleEndian::write_u32(&mut head[8..], length);
    head
}

/// The byte of a body at this place: of its head, of its content, or zero behind them.
fn body_byte(head: &[u8; 12], content: &[u8], at: usize) -> u8
    ensures { result ≡ slice_index (head.now ++ content.now) at }
{
    if at < 12 {
        head[at]
    } else if at - 12 < content.len() {
        content[at - 12]
    } else {
        0
    }
}

/// The sector of a body with this index, filled with zeros behind the content.
fn body_sector(head: &[u8; 12], content: &[u8], index: usize) -> [u8; 512]
    requires { 512 * index + 512 < 2 ^ 64 }
    ensures size { length result ≡ 512 }
    ensures bytes { (k : ℕ) → k < 512
        → slice_index result k ≡ slice_index (head.now ++ content.now) (512 * index + k) }
{
    let mut sector = [0; 512];
    for (k, byte) in sector.iter_mut().enumerate() {
        *byte = body_byte(head, content, 512 * index + k);
    }
    sector
}

/// Writes the sectors that hold bytes of a body, behind its gate, and syncs.
pub(crate) fn write_body<P: Plant>(
    plant: &mut P,
    area: Area,
    gate: u64,
    sectors: usize,
    number: u64,
    content: &[u8],
) -> Result<(), Failed>
    requires few { sectors ≤ 65536 }
    requires room { gate + 1 + sectors ≤ (P.view plant.old).size area }
    requires short { 12 + length content.now ≤ 512 * sectors }
    ensures body { (P.view plant.old).tells → OnOk result
        (body sectors ((P.view plant.new).reads area) gate ≡ stored number content.now) }
    ensures bytes { (P.view plant.old).tells → OnOk result (Written ((P.view plant.new).reads area) (512 * (gate + 1))
        (body_bytes number content.now) (512 * used_sectors (length content.now))) }
    ensures synced { (P.view plant.old).tells → OnOk result (IsSynced (P.view plant.new) area) }
    ensures touches { Touches area (gate + 1) sectors (P.view plant.old) (P.view plant.new) }
    ensures few { Touches area (gate + 1) (used_sectors (length content.now)) (P.view plant.old) (P.view plant.new) }
    ensures wears { (P.view plant.old).tells
        → WritesAtMost area (used_sectors (length content.now)) (P.view plant.old) (P.view plant.new) }
    ensures cause { HasCause (P.view plant.old).faults (P.view plant.new).faults result }
{
    let head = body_head(number, content.len() as u32);
    let count = (content.len() + 523) / 512;
    'sectors: for index in 0..count {
        let sector = body_sector(&head, content, index);
        write_sectors(plant, area, gate + 1 + index as u64, &sector)?;
    }
    sync_area(plant, area)?;
    Ok(())
}
