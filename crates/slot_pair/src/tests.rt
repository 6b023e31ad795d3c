//! Pairs of two slots whose bytes stand here as the format has them, and plants whose calls fail.

ghost use Rattle.std.specs.Prelude.{◌≡◌, ◌*◌, ◌+◌, ◌≤◌, length};

use super::*;
use bd_dev::Area;
use bd_sim::SimPlant;
use std::alloc::Global;
use std::test::Fail;

pub(crate) const OPEN: &[u8; 8] = b"ONIEOPEN";

pub(crate) const CLOSED: &[u8; 8] = &[0; 8];

/// Makes the slot whose gate is in this sector.
pub(crate) fn put(
    flash: &mut [u8; 3584],
    gate: usize,
    word: &[u8; 8],
    number: u64,
    long: u32,
    content: &[u8],
)
    requires room { 512 * gate + 1536 ≤ 3584 }
    requires short { length content.now ≤ 1012 }
{
    let at = 512 * gate;
    flash[at..at + 8].copy_from_slice(word);
    flash[at + 512..at + 520].copy_from_slice(&number.to_le_bytes());
    flash[at + 520..at + 524].copy_from_slice(&long.to_le_bytes());
    flash[at + 524..at + 524 + content.len()].copy_from_slice(content);
}

/// Seven sectors: behind the first a pair of slots of two sectors of body, of which one holds `one` and the other
/// `second`.
pub(crate) fn flash(first: (&[u8; 8], u64), second: (&[u8; 8], u64)) -> [u8; 3584]
    ensures { length result ≡ 3584 }
{
    let mut flash = [0xEE; 3584];
    put(&mut flash, 1, first.0, first.1, 3, b"one");
    put(&mut flash, 4, second.0, second.1, 6, b"second");
    flash
}

/// A plant with the flash of these slots, whose calls of these numbers fail. It promises nothing: what a plant in
/// memory is need not be read for each test.
pub(crate) fn plant_of(
    alloc: Global,
    first: (&[u8; 8], u64),
    second: (&[u8; 8], u64),
    fails: &[u64],
) -> Result<SimPlant, Fail> {
    Ok(SimPlant::new(alloc, &[], &flash(first, second), fails)?)
}

/// A plant with this flash.
fn plant_with(alloc: Global, flash: &[u8]) -> Result<SimPlant, Fail>
    requires { length flash.now ≡ 3584 }
{
    Ok(SimPlant::new(alloc, &[], flash, &[])?)
}

/// Whether the pair's current content is this.
pub(crate) fn reads(plant: &mut SimPlant, content: &[u8]) -> Result<bool, SlotFault> {
    let pair = SlotPair::<2>::open(plant, Area::Flash, 1)?;
    let mut out = [0; 1024];
    let length = pair.read(plant, &mut out)?;
    Ok(&out[..length] == content)
}

#[test]
fn the_greater_number_is_current(rt: HostRuntime) -> Result<(), Fail> {
    let cases: [(u64, u64, &[u8]); 7] = [
        (1, 2, b"second"),
        (2, 1, b"one"),
        (5, 5, b"one"),
        (0, 0, b"one"),
        (u64::MAX, 0, b"one"),
        (u64::MAX - 1, u64::MAX, b"second"),
        (255, 256, b"second"),
    ];
    for (first, second, content) in cases {
        let mut plant = plant_of(rt.alloc(), (OPEN, first), (OPEN, second), &[])?;
        assert_eq!(rt; reads(&mut plant, content), Ok(true), "{first} {second}");
    }
    Ok(())
}

#[test]
fn a_gate_decides_by_its_first_eight_bytes(rt: HostRuntime) -> Result<(), Fail> {
    let cases: [(&[u8; 8], &[u8; 8], Result<&[u8], SlotFault>); 6] = [
        (CLOSED, OPEN, Ok(b"second")),
        (OPEN, CLOSED, Ok(b"one")),
        (CLOSED, CLOSED, Err(SlotFault::NoSlot)),
        (b"ONIEOPEN", b"ONIEOPEM", Ok(b"one")),
        (b"ONIEOPE\0", b"ONIEOPEN", Ok(b"second")),
        (b"oNIEOPEN", b"NIEOPEN\0", Err(SlotFault::NoSlot)),
    ];
    for (first, second, want) in cases {
        let mut plant = plant_of(rt.alloc(), (first, 1), (second, 2), &[])?;
        match want {
            Ok(content) => assert_eq!(rt; reads(&mut plant, content), Ok(true)),
            Err(fault) => assert_eq!(rt; reads(&mut plant, b""), Err(fault)),
        }
    }
    Ok(())
}

#[test]
fn a_slot_of_a_content_that_is_too_long_is_not_open(rt: HostRuntime) -> Result<(), Fail> {
    let mut full = flash((OPEN, 1), (OPEN, 2));
    put(&mut full, 4, OPEN, 2, 1012, &[7; 1012]);
    let mut plant = plant_with(rt.alloc(), &full)?;
    assert_eq!(rt; reads(&mut plant, &[7; 1012]), Ok(true));
    for long in [1013, 1024, 65_548, u32::MAX] {
        put(&mut full, 4, OPEN, 2, long, b"");
        let mut plant = plant_with(rt.alloc(), &full)?;
        assert_eq!(rt; reads(&mut plant, b"one"), Ok(true), "{long}");
    }
    put(&mut full, 1, OPEN, 1, 1013, b"");
    let mut plant = plant_with(rt.alloc(), &full)?;
    assert_eq!(rt; reads(&mut plant, b""), Err(SlotFault::NoSlot));
    Ok(())
}

#[test]
fn an_empty_content_is_read(rt: HostRuntime) -> Result<(), Fail> {
    let mut flash = flash((CLOSED, 1), (CLOSED, 2));
    put(&mut flash, 4, OPEN, 2, 0, b"");
    let mut plant = plant_with(rt.alloc(), &flash)?;
    assert_eq!(rt; reads(&mut plant, b""), Ok(true));
    Ok(())
}

#[test]
fn the_area_has_room_for_the_pair(rt: HostRuntime) -> Result<(), Fail> {
    let flash = flash((OPEN, 1), (OPEN, 2));
    let (six, _) = flash.split_at(3072);
    let mut plant = SimPlant::new(rt.alloc(), &[], six, &[])?;
    assert_eq!(rt; reads(&mut plant, b""), Err(SlotFault::NoSlot));
    for base in [2, 7, u64::MAX - 5, u64::MAX] {
        let mut plant = SimPlant::new(rt.alloc(), &flash, &[], &[])?;
        let opened = SlotPair::<2>::open(&mut plant, Area::Disk, base);
        assert!(rt; matches!(&opened, Err(SlotFault::NoSlot)), "{base}");
        assert_eq!(rt; plant.calls(), 0);
    }
    let mut plant = SimPlant::new(rt.alloc(), &flash, &[], &[])?;
    assert!(rt; SlotPair::<2>::open(&mut plant, Area::Disk, 1).is_ok());
    Ok(())
}

#[test]
fn a_call_that_fails_is_a_fault(rt: HostRuntime) -> Result<(), Fail> {
    for call in 1..=3 {
        let mut plant = plant_of(rt.alloc(), (OPEN, 1), (OPEN, 2), &[call])?;
        assert_eq!(rt;
            reads(&mut plant, b"second"),
            Err(SlotFault::Fault),
            "{call}"
        );
        assert_eq!(rt; reads(&mut plant, b"second"), Ok(true), "{call}");
    }
    Ok(())
}
