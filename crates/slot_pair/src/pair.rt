//! A pair of slots.

ghost use Rattle.std.specs.Prelude.{◌≡◌, ◌≢◌, ◌⊎◌, ◌↔◌, ◌<◌, ◌≤◌, ◌+◌, ◌-◌, ◌*◌, ◌^◌, length, take, nat_le, not, Ok, Err, Some, None, IfOk, IsTrue, OnErr, OnOk, false, true};
ghost use Rattle.bd_dev.specs.Faults.{HasCause, HasCauseOr};
ghost use Rattle.bd_dev.specs.Plant.{IsSynced};
ghost use Rattle.bd_dev.specs.Runs.{Looks, WritesAtMost};
ghost use Rattle.bd_dev.specs.Touching.{Touches};
ghost use Rattle.slot_pair.specs.Body.{IsSpelled, used_sectors};
ghost use Rattle.slot_pair.specs.Formatting.{IsBesideFormat, IsShut, LeavesAlone};
ghost use Rattle.slot_pair.specs.Pair.{Fits, Pair};
ghost use Rattle.slot_pair.specs.Putting.{Formats, IsStored, Puts, formatted, turned};
ghost use Rattle.slot_pair.specs.declared.fault.SlotFault.TheVariants.{Fault, NoSlot};
ghost use Rattle.slot_model.specs.Slots.{current, current_in, is_open_gate, most_bytes, pair_sectors, slot_lba};

use crate::choice::choose;
use crate::fault::{PutFault, SlotFault};
use crate::gates::close_gate;
use crate::head::{content_to_front, is_too_long, slot_number};
use crate::slots::{close_slots, fill_slot, slot_gate};
use bd_dev::{Area, Failed, Plant, read_sectors};
use std::marker::Model;

/// A pair of slots of N sectors of body each, 1 to 65,536: where it begins, which slot is current, and that slot's
/// number. The sectors stay in the plant: a call on a pair asks for a plant that fits it.
#[derive(Drop)]
pub struct SlotPair<const N: usize> {
    area: Area,
    base: u64,
    second: bool,
    number: u64,
}

impl<const N: usize> Model for SlotPair<N> {
    ghost Value = { Pair };

    ghost view = { λ s. record { area = s.area; base = s.base; second = s.second; number = s.number } };
}

/// Whether so many sectors from the base on are within an area of this size.
fn has_room(size: u64, base: u64, sectors: u64) -> bool
    ensures { result ≡ nat_le (base + sectors) size }
{
    sectors <= size && base <= size - sectors
}

impl<const N: usize> SlotPair<N> {
    /// The sector of the current slot's gate.
    fn gate(&self) -> u64
        requires { self.now.base + pair_sectors N < 2 ^ 64 }
        ensures { result ≡ slot_lba N self.now.base self.now.second }
    {
        slot_gate(self.base, N, self.second)
    }

    /// The sector of the other slot's gate.
    fn other_gate(&self) -> u64
        requires { self.now.base + pair_sectors N < 2 ^ 64 }
        ensures { result ≡ slot_lba N self.now.base (not self.now.second) }
    {
        slot_gate(self.base, N, !self.second)
    }

    /// Whether the current slot has the greatest number that there is, so that a put is `SeqEnd`.
    pub fn is_last(&self) -> bool
        ensures { IsTrue result ↔ (self.now.number ≡ 2 ^ 64 - 1) }
    {
        self.number == u64::MAX
    }

    /// Finds the current slot of the pair that begins at the sector `base` of an area, in two reads of two sectors. The
    /// second slot begins at the sector base + N + 1.
    ///
    /// `NoSlot` where neither slot is open, or the area has no room for the 2 (N + 1) sectors; `Fault` where the plant
    /// fails.
    pub fn open<P: Plant>(plant: &mut P, area: Area, base: u64) -> Result<SlotPair<N>, SlotFault>
        requires some { 0 < N }
        requires few { N ≤ 65536 }
        ensures opened { IfOk result (λ pair. Fits N (P.view plant.new) pair) }
        ensures place { IfOk result (λ pair. (pair.area ≡ area) × (pair.base ≡ base)) }
        ensures none { (P.view plant.old).tells → result ≡ Err NoSlot
            → current_in ((P.view plant.old).size area) N ((P.view plant.old).reads area) base ≡ None }
        ensures empty { (P.view plant.old).tells
            → current_in ((P.view plant.old).size area) N ((P.view plant.old).reads area) base ≡ None
            → (result ≡ Err NoSlot) ⊎ (result ≡ Err Fault) }
        ensures small { (P.view plant.old).size area < base + pair_sectors N → result ≡ Err NoSlot }
        ensures looks { Looks (P.view plant.old) (P.view plant.new) }
        ensures cause { HasCauseOr Fault (P.view plant.old).faults (P.view plant.new).faults result }
    {
        if !has_room(plant.sectors(area), base, 2 * (N as u64 + 1)) {
            return Err(SlotFault::NoSlot);
        }
        let first = slot_number(plant, area, base, N)?;
        let other = slot_number(plant, area, base + N as u64 + 1, N)?;
        match choose(first, other) {
            Some((second, number)) => Ok(SlotPair {
                area,
                base,
                second,
                number,
            }),
            None => Err(SlotFault::NoSlot),
        }
    }

    /// Reads the content of the current slot to the front of `out`, and gives its length in bytes, at most 512 N - 12.
    /// `out` has at least 512 N bytes; what stands there behind the content is of no use. Answers `Failed` where the
    /// plant fails.
    pub fn read<P: Plant>(&self, plant: &mut P, out: &mut [u8]) -> Result<usize, Failed>
        requires some { 0 < N }
        requires few { N ≤ 65536 }
        requires fits { Fits N (P.view plant.old) self.now }
        requires room { 512 * N ≤ length out.old }
        ensures content { (P.view plant.old).tells → IfOk result (λ n.
            current N ((P.view plant.old).reads self.now.area) self.now.base
            ≡ Some (record { number = self.now.number; content = take n out.new })) }
        ensures within { IfOk result (λ n. n ≤ most_bytes N) }
        ensures looks { Looks (P.view plant.old) (P.view plant.new) }
        ensures cause { HasCause (P.view plant.old).faults (P.view plant.new).faults result }
    {
        let gate = self.gate();
        let body = &mut out[..512 * N];
        read_sectors(plant, self.area, gate + 1, body)?;
        let length = content_to_front(body);
        Ok(length)
    }

    /// Puts a content into the slot that is not current, which is current from then on, under the next number. A crash
    /// at any moment leaves the content before or this one, and after Ok this one.
    ///
    /// If the other slot's gate reads open, zeros are written over it and synced. Then the body is written and synced,
    /// then the open gate is written and synced: at most 2 + (12 + content length) / 512, rounded up, writes of a sector
    /// and three syncs. The plant fits the pair, and nothing of the pair's area is unsynced.
    ///
    /// `TooLong` where the content has over 512 N - 12 bytes, else `SeqEnd` where no number is left: then no call was
    /// made. `Fault` where the plant fails: then this pair may no longer fit the plant.
    pub fn put<P: Plant>(&mut self, plant: &mut P, content: &[u8]) -> Result<(), PutFault>
        requires some { 0 < N }
        requires few { N ≤ 65536 }
        requires fits { Fits N (P.view plant.old) self.old }
        requires synced { (P.view plant.old).tells → IsSynced (P.view plant.old) self.old.area }
        ensures too_long { (result ≡ Err PutFault.TooLong) ↔ (most_bytes N < length content.now) }
        ensures seq_end { (result ≡ Err PutFault.SeqEnd)
            ↔ ((length content.now ≤ most_bytes N) × (self.old.number ≡ 2 ^ 64 - 1)) }
        ensures refused { (result ≡ Err PutFault.TooLong) ⊎ (result ≡ Err PutFault.SeqEnd)
            → plant.new ≡ plant.old }
        ensures kept { OnErr result (self.new ≡ self.old) }
        ensures turned { OnOk result (self.new ≡ turned self.old) }
        ensures stored { OnOk result (IsStored N (P.view plant.new) self.new content.now) }
        ensures bytes { (P.view plant.old).tells → OnOk result (IsSpelled ((P.view plant.new).reads self.old.area)
            (slot_lba N self.old.base (not self.old.second)) (self.old.number + 1) content.now) }
        ensures few { Touches self.old.area (slot_lba N self.old.base (not self.old.second))
            (used_sectors (length content.now) + 1) (P.view plant.old) (P.view plant.new) }
        ensures wears { (P.view plant.old).tells → WritesAtMost self.old.area (used_sectors (length content.now) + 2)
            (P.view plant.old) (P.view plant.new) }
        ensures puts { Puts N self.old content.now (P.view plant.old) (P.view plant.new) }
        ensures cause { HasCauseOr PutFault.Fault (P.view plant.old).faults (P.view plant.new).faults result }
    {
        if is_too_long(content.len(), N) {
            return Err(PutFault::TooLong);
        }
        if self.is_last() {
            return Err(PutFault::SeqEnd);
        }
        let gate = self.other_gate();
        close_gate(plant, self.area, gate)?;
        fill_slot(plant, self.area, gate, N, self.number + 1, content)?;
        self.second = !self.second;
        self.number += 1;
        Ok(())
    }

    /// Makes the pair that begins at the sector `base` of an area, with this content in its first slot under number 1.
    /// A crash at any moment leaves the content of the pair that was there before, this one, or no open slot; after Ok
    /// this one.
    ///
    /// Each gate that reads open is closed and synced, the current slot's last. Then the first slot's body is written and
    /// synced, then its gate: at most one write of a sector more than a put makes. The second slot's body and all beside
    /// the pair is left alone. The area has room for the 2 (N + 1) sectors, and nothing of it is unsynced.
    ///
    /// `TooLong` where the content has over 512 N - 12 bytes: then no call was made. `Fault` where the plant fails. Never
    /// `SeqEnd`.
    pub fn format<P: Plant>(
        plant: &mut P,
        area: Area,
        base: u64,
        content: &[u8],
    ) -> Result<SlotPair<N>, PutFault>
        requires some { 0 < N }
        requires few { N ≤ 65536 }
        requires room { base + pair_sectors N ≤ (P.view plant.old).size area }
        requires synced { (P.view plant.old).tells → IsSynced (P.view plant.old) area }
        ensures too_long { (result ≡ Err PutFault.TooLong) ↔ (most_bytes N < length content.now) }
        ensures refused { result ≡ Err PutFault.TooLong → plant.new ≡ plant.old }
        ensures never { result ≢ Err PutFault.SeqEnd }
        ensures made { IfOk result (λ pair. pair ≡ formatted area base) }
        ensures stored { IfOk result (λ pair. IsStored N (P.view plant.new) pair content.now) }
        ensures bytes { (P.view plant.old).tells
            → OnOk result (IsSpelled ((P.view plant.new).reads area) base 1 content.now) }
        ensures shut { (P.view plant.old).tells → OnOk result (IsShut
            ((P.view plant.old).reads area) ((P.view plant.new).reads area) (slot_lba N base true)) }
        ensures closed { (P.view plant.old).tells
            → OnOk result (is_open_gate ((P.view plant.new).reads area) (slot_lba N base true) ≡ false) }
        ensures few { (P.view plant.old).tells → LeavesAlone
            (IsBesideFormat N area base (used_sectors (length content.now))) (P.view plant.old) (P.view plant.new) }
        ensures wears { (P.view plant.old).tells
            → WritesAtMost area (used_sectors (length content.now) + 3) (P.view plant.old) (P.view plant.new) }
        ensures formats { Formats N area base content.now (P.view plant.old) (P.view plant.new) }
        ensures cause { HasCauseOr PutFault.Fault (P.view plant.old).faults (P.view plant.new).faults result }
    {
        if is_too_long(content.len(), N) {
            return Err(PutFault::TooLong);
        }
        close_slots(plant, area, base, N)?;
        fill_slot(plant, area, base, N, 1, content)?;
        Ok(SlotPair {
            area,
            base,
            second: false,
            number: 1,
        })
    }
}
