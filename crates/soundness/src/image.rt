//! ONIE's image in its partition.

ghost use Rattle.std.specs.Prelude.{◌≡◌, ◌≤◌, ◌<◌, IfOk};
ghost use Rattle.bd_dev.specs.declared.plant.Area.TheVariants.{Disk};
ghost use Rattle.bd_dev.specs.Faults.{HasCause};
ghost use Rattle.bd_dev.specs.Runs.{Looks};
ghost use Rattle.storage_model.specs.Image.{has_image, is_image_head};

use bd_dev::{Area, Failed, Plant, read_sectors};
use byteorder::{ByteOrder, LittleEndian};
use gpt_copy::Entry;

/// The most bytes that an image has: what a slot of 4,096 sectors holds beside its 12 bytes of number and length.
const MOST_BYTES: u32 = 2_097_140;

/// Whether a sector begins with `ONIEIMG1` and the length of an image in bytes, from 1 to 2,097,140 and at most `room`.
#[tactic(auto, unfolding(storage_model::specs::Image::is_image_head))]
fn heads_image(sector: &[u8; 512], room: u64) -> bool
    ensures { result ≡ is_image_head sector.now room }
{
    let length = LittleEndian::read_u32(&sector[8..]);
    sector[..8] == b"ONIEIMG1"[..]
        && 1 <= length
        && length <= MOST_BYTES
        && u64::from(length) <= room
}

/// Whether a partition holds an image: its first sector begins with the mark and the length of one, and the sectors
/// behind the first have room for that many bytes. `Failed` where the plant fails.
pub(crate) fn holds_image<P: Plant>(plant: &mut P, entry: &Entry) -> Result<bool, Failed>
    requires ordered { entry.now.first ≤ entry.now.last }
    requires room { entry.now.last < (P.view plant.old).size Disk }
    ensures judged { (P.view plant.old).tells → IfOk result (λ r. r ≡ has_image ((P.view plant.old).reads Disk) entry.now) }
    ensures looks { Looks (P.view plant.old) (P.view plant.new) }
    ensures cause { HasCause (P.view plant.old).faults (P.view plant.new).faults result }
{
    let mut sector = [0; 512];
    read_sectors(plant, Area::Disk, entry.first, &mut sector)?;
    Ok(heads_image(&sector, 512 * (entry.last - entry.first)))
}
