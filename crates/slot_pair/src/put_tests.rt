//! Puts and formats of a pair of slots of two sectors of body, cut at each moment or failing at each call.

use super::*;
use crate::tests::{CLOSED, OPEN, plant_of, reads};
use bd_dev::{Area, Plant};
use bd_sim::{Pick, SimPlant};
use std::test::Fail;

/// Syncs the flash, opens the pair and puts a content.
fn put_content(plant: &mut SimPlant, content: &[u8]) -> Result<(), PutFault> {
    plant.sync(Area::Flash)?;
    let Ok(mut pair) = SlotPair::<2>::open(plant, Area::Flash, 1) else {
        return Err(PutFault::Fault);
    };
    pair.put(plant, content)?;
    Ok(())
}

/// Syncs the flash and makes the pair anew with a content.
fn format_with(plant: &mut SimPlant, content: &[u8]) -> Result<(), PutFault> {
    plant.sync(Area::Flash)?;
    if plant.sectors(Area::Flash) < 7 {
        return Err(PutFault::Fault);
    }
    let _pair = SlotPair::<2>::format(plant, Area::Flash, 1, content)?;
    Ok(())
}

/// What the pair's current content is, of two; or that no slot is open.
#[derive(Clone, Copy, Debug, PartialEq, Eq)]
enum Found {
    Old,
    New,
    Nothing,
    Else,
}

fn find_content(plant: &mut SimPlant, old: &[u8], new: &[u8]) -> Found {
    match reads(plant, old) {
        Ok(true) => Found::Old,
        Ok(false) => match reads(plant, new) {
            Ok(true) => Found::New,
            _ => Found::Else,
        },
        Err(SlotFault::NoSlot) => Found::Nothing,
        Err(SlotFault::Fault) => Found::Else,
    }
}

/// How often a power cut within a call on this plant leaves the old content, the new one, nothing and anything else,
/// where one sector of the flash is old, new or torn.
fn left(plant: &SimPlant, old: &[u8], new: &[u8]) -> Result<[bool; 4], Fail> {
    let mut left = [false; 4];
    for moment in 0..=plant.calls() {
        for lba in 1..7 {
            for pick in [Pick::Old, Pick::New, Pick::Torn(0), Pick::Torn(255)] {
                let picks = [(Area::Flash, lba, pick)];
                if plant.allows(moment, &picks) {
                    let mut image = plant.image(moment, &picks)?;
                    match find_content(&mut image, old, new) {
                        Found::Old => left[0] = true,
                        Found::New => left[1] = true,
                        Found::Nothing => left[2] = true,
                        Found::Else => left[3] = true,
                    }
                }
            }
        }
    }
    Ok(left)
}

#[test]
fn a_crash_of_a_put_leaves_the_old_or_the_new(rt: HostRuntime) -> Result<(), Fail> {
    let slots: [((&[u8; 8], u64), (&[u8; 8], u64), &[u8]); 4] = [
        ((OPEN, 1), (OPEN, 2), b"second"),
        ((OPEN, 9), (OPEN, 2), b"one"),
        ((OPEN, 1), (CLOSED, 8), b"one"),
        ((CLOSED, 9), (OPEN, 2), b"second"),
    ];
    for (first, second, old) in slots {
        for new in [b"".as_slice(), b"new", &[b'n'; 1012]] {
            let mut plant = plant_of(rt.alloc(), first, second, &[])?;
            put_content(&mut plant, new)?;
            assert_eq!(rt; left(&plant, old, new)?, [true, true, false, false]);
            assert_eq!(rt; reads(&mut plant, new), Ok(true));
        }
    }
    Ok(())
}

#[test]
fn a_crash_of_a_format_leaves_the_old_the_new_or_none(rt: HostRuntime) -> Result<(), Fail> {
    let slots: [((&[u8; 8], u64), (&[u8; 8], u64), &[u8]); 4] = [
        ((OPEN, 1), (OPEN, 2), b"second"),
        ((OPEN, 9), (OPEN, 2), b"one"),
        ((OPEN, 1), (CLOSED, 8), b"one"),
        ((CLOSED, 9), (OPEN, 2), b"second"),
    ];
    for (first, second, old) in slots {
        let mut plant = plant_of(rt.alloc(), first, second, &[])?;
        format_with(&mut plant, b"new")?;
        assert_eq!(rt; left(&plant, old, b"new")?, [true, true, true, false]);
        assert_eq!(rt; reads(&mut plant, b"new"), Ok(true));
    }
    Ok(())
}

#[test]
fn an_unmade_pair_is_formatted(rt: HostRuntime) -> Result<(), Fail> {
    let mut plant = plant_of(rt.alloc(), (CLOSED, 1), (CLOSED, 2), &[])?;
    format_with(&mut plant, &[7; 1012])?;
    assert_eq!(rt; left(&plant, b"", &[7; 1012])?, [false, true, true, false]);
    assert_eq!(rt; plant.calls(), 10);
    Ok(())
}

#[test]
fn a_put_follows_one_that_failed(rt: HostRuntime) -> Result<(), Fail> {
    for call in 1..=10 {
        let mut plant = plant_of(rt.alloc(), (OPEN, 1), (OPEN, 2), &[call])?;
        assert_eq!(rt;
            put_content(&mut plant, b"new"),
            Err(PutFault::Fault),
            "call {call}"
        );
        assert_eq!(rt; put_content(&mut plant, b"newer"), Ok(()), "call {call}");
        assert_eq!(rt; reads(&mut plant, b"newer"), Ok(true), "call {call}");
    }
    Ok(())
}

#[test]
fn a_format_follows_one_that_failed(rt: HostRuntime) -> Result<(), Fail> {
    for call in 1..=13 {
        let mut plant = plant_of(rt.alloc(), (OPEN, 1), (OPEN, 2), &[call])?;
        assert_eq!(rt;
            format_with(&mut plant, b"new"),
            Err(PutFault::Fault),
            "call {call}"
        );
        assert_eq!(rt; format_with(&mut plant, b"newer"), Ok(()), "call {call}");
        assert_eq!(rt; reads(&mut plant, b"newer"), Ok(true), "call {call}");
    }
    Ok(())
}

#[test]
fn a_put_writes_the_sectors_that_hold_bytes(rt: HostRuntime) -> Result<(), Fail> {
    for (length, calls) in [(0, 10), (500, 10), (501, 11), (1012, 11)] {
        let content = [b'x'; 1012];
        let (content, _) = content.split_at(length);
        let mut plant = plant_of(rt.alloc(), (OPEN, 1), (OPEN, 2), &[])?;
        put_content(&mut plant, content)?;
        assert_eq!(rt; plant.calls(), calls, "{length} bytes over an open slot");
        let mut plant = plant_of(rt.alloc(), (CLOSED, 1), (OPEN, 2), &[])?;
        put_content(&mut plant, content)?;
        assert_eq!(rt;
            plant.calls(),
            calls - 2,
            "{length} bytes into a closed slot"
        );
    }
    Ok(())
}

#[test]
fn a_refused_put_makes_no_call(rt: HostRuntime) -> Result<(), Fail> {
    let cases: [(u64, &[u8], PutFault); 3] = [
        (2, &[7; 1013], PutFault::TooLong),
        (u64::MAX, &[7; 1013], PutFault::TooLong),
        (u64::MAX, b"new", PutFault::SeqEnd),
    ];
    for (number, content, fault) in cases {
        let mut plant = plant_of(rt.alloc(), (CLOSED, 1), (OPEN, number), &[])?;
        assert_eq!(rt; put_content(&mut plant, content), Err(fault));
        assert_eq!(rt; plant.calls(), 3);
        assert_eq!(rt; reads(&mut plant, b"second"), Ok(true));
    }
    Ok(())
}

#[test]
fn a_put_may_use_the_last_number(rt: HostRuntime) -> Result<(), Fail> {
    let mut plant = plant_of(rt.alloc(), (CLOSED, 1), (OPEN, u64::MAX - 1), &[])?;
    assert_eq!(rt; put_content(&mut plant, b"last"), Ok(()));
    assert_eq!(rt; put_content(&mut plant, b"none"), Err(PutFault::SeqEnd));
    assert_eq!(rt; reads(&mut plant, b"last"), Ok(true));
    Ok(())
}
