//! The head of a slot: its gate's sector and the first sector of its body.

ghost use Rattle.std.specs.Prelude.{◌≡◌, ◌<◌, ◌≤◌, ◌+◌, ◌*◌, ◌^◌, length, take, drop, nat_lt, IfOk, option_map};
ghost use Rattle.bd_dev.specs.Faults.{HasCause};
ghost use Rattle.bd_dev.specs.Runs.{Looks};
ghost use Rattle.slot_pair.specs.Head.{content_length, is_open_head, number_in};
ghost use Rattle.slot_model.specs.Slots.{most_bytes, slot};

use crate::gates::says_open;
use bd_dev::{Area, Failed, Plant, read_sectors};
use byteorder::{ByteOrder, LittleEndian};

/// The length in bytes that a body says its content has.
fn length_in(body: &[u8]) -> usize
    requires { 12 ≤ length body.now }
    ensures length { result ≡ content_length body.now }
    ensures bound { result < 2 ^ 32 }
{
    LittleEndian::read_u32(&body[8..]) as usize
}

/// Whether so many bytes of content are more than a slot with `sectors` sectors of body has room for.
pub(crate) fn is_too_long(length: usize, sectors: usize) -> bool
    requires some { 0 < sectors }
    requires few { sectors ≤ 65536 }
    ensures { result ≡ nat_lt (most_bytes sectors) length }
{
    length > 512 * sectors - 12
}

/// Whether the slot with this head and `sectors` sectors of body is open.
fn is_open(head: &[u8], sectors: usize) -> bool
    requires head { length head.now ≡ 1024 }
    requires some { 0 < sectors }
    requires few { sectors ≤ 65536 }
    ensures { result ≡ is_open_head sectors head.now }
{
    let (_, body) = head.split_at(512);
    says_open(head) && length_in(body) <= 512 * sectors - 12
}

/// The number of the slot with this head and `sectors` sectors of body, or None where it is not open.
#[tactic(auto, unfolding(crate::specs::Head::number_in))]
fn head_number(head: &[u8], sectors: usize) -> Option<u64>
    requires head { length head.now ≡ 1024 }
    requires some { 0 < sectors }
    requires few { sectors ≤ 65536 }
    ensures { result ≡ number_in sectors head.now }
{
    if !is_open(head, sectors) {
        return None;
    }
    Some(LittleEndian::read_u64(&head[512..]))
}

/// Reads the number of the slot whose gate is in this sector, with `sectors` sectors of body: None where it is not
/// open.
pub(crate) fn slot_number<P: Plant>(
    plant: &mut P,
    area: Area,
    gate: u64,
    sectors: usize,
) -> Result<Option<u64>, Failed>
    requires some { 0 < sectors }
    requires few { sectors ≤ 65536 }
    requires room { gate + 1 + sectors ≤ (P.view plant.old).size area }
    ensures number { (P.view plant.old).tells → IfOk result (λ number.
        number ≡ option_map (λ s. s.number) (slot sectors ((P.view plant.old).reads area) gate)) }
    ensures looks { Looks (P.view plant.old) (P.view plant.new) }
    ensures cause { HasCause (P.view plant.old).faults (P.view plant.new).faults result }
{
    let mut head = [0; 1024];
    read_sectors(plant, area, gate, &mut head)?;
    Ok(head_number(&head, sectors))
}

/// Moves the content of a body to its front, and gives its length in bytes: what the body says, and no more than it
/// has.
pub(crate) fn content_to_front(body: &mut [u8]) -> usize
    requires { 12 ≤ length body.old }
    ensures within { result + 12 ≤ length body.old }
    ensures length { content_length body.old + 12 ≤ length body.old → result ≡ content_length body.old }
    ensures content { take result body.new ≡ take result (drop 12 body.old) }
{
    let length = length_in(body).min(body.len() - 12);
    body.copy_within(12..12 + length, 0);
    length
}
