//! Changes of variables: what they make of the text, why they are refused, cut at each moment or failing at each call.

use super::*;
use crate::tests::{flash, plant_of, plant_with, put};
use bd_dev::{Area, Plant};
use bd_sim::SimPlant;
use std::alloc::Global;
use std::test::Fail;

/// A change of one variable: its name, and its value where it is set.
#[derive(Clone, Copy)]
pub(crate) struct Change<'a> {
    pub name: &'a [u8],
    pub value: Option<&'a [u8]>,
}

/// Syncs the flash, opens the variables and makes a change.
pub(crate) fn make(plant: &mut SimPlant, change: Change) -> Result<(), VarFault> {
    match plant.sync(Area::Flash) {
        Ok(()) => {}
        Err(_) => return Err(VarFault::Fault),
    }
    let Ok(mut vars) = BootVars::open(plant) else {
        return Err(VarFault::Fault);
    };
    match change.value {
        Some(value) => vars.set(plant, change.name, value),
        None => vars.unset(plant, change.name),
    }
}

/// The text that the flash keeps.
pub(crate) fn text_of(alloc: Global, plant: &mut SimPlant) -> Result<Vec<u8>, Fail> {
    let vars = BootVars::open(plant)?;
    Ok(Vec::from_slice(alloc, vars.text())?)
}

/// The change that sets a variable.
fn set<'a>(name: &'a [u8], value: &'a [u8]) -> Change<'a> {
    Change {
        name,
        value: Some(value),
    }
}

/// The change that takes a variable out.
fn unset(name: &[u8]) -> Change {
    Change { name, value: None }
}

/// A text, a change of it, and the text after it.
#[test]
fn a_variable_is_set_in_its_place_or_behind_all_others(rt: HostRuntime) -> Result<(), Fail> {
    let cases: [(&[u8], Change, &[u8]); 14] = [
        (b"", set(b"a", b"1"), b"a=1\0"),
        (b"", set(b"a", b""), b"a=\0"),
        (b"a=1\0", set(b"a", b"1"), b"a=1\0"),
        (
            b"a=1\0b=2\0c=3\0",
            set(b"a", b"long"),
            b"a=long\0b=2\0c=3\0",
        ),
        (b"a=1\0b=2\0c=3\0", set(b"b", b""), b"a=1\0b=\0c=3\0"),
        (
            b"a=1\0b=2\0c=3\0",
            set(b"c", b"a=~ b"),
            b"a=1\0b=2\0c=a=~ b\0",
        ),
        (b"a=1\0b=2\0", set(b"A", b"x"), b"a=1\0b=2\0A=x\0"),
        (b"aa=1\0b=a=2\0", set(b"a", b"3"), b"aa=1\0b=a=2\0a=3\0"),
        (b"a=1\0b=2\0c=3\0", unset(b"a"), b"b=2\0c=3\0"),
        (b"a=1\0b=2\0c=3\0", unset(b"b"), b"a=1\0c=3\0"),
        (b"a=1\0b=2\0c=3\0", unset(b"c"), b"a=1\0b=2\0"),
        (b"a=1\0", unset(b"a"), b""),
        (b"aa=1\0b=a\0", unset(b"a"), b"aa=1\0b=a\0"),
        (b"", unset(b"zzz"), b""),
    ];
    for (text, change, want) in cases {
        assert!(rt; text.len() < 100);
        let mut plant = plant_of(rt.alloc(), text, &[])?;
        assert_eq!(rt; make(&mut plant, change), Ok(()));
        let text = text_of(rt.alloc(), &mut plant)?;
        assert_eq!(rt; text.as_slice(), want);
    }
    Ok(())
}

/// A text, a change of it, and why that is refused: no call follows the sync and the three reads that open the variables.
#[test]
fn a_change_is_refused_by_the_first_reason(rt: HostRuntime) -> Result<(), Fail> {
    let long = [b'n'; 65];
    let value = [b'v'; 8178];
    let (name, _) = long.split_at(64);
    let (full, _) = value.split_at(8177);
    let (too_long, _) = value.split_at(8115);
    let cases: [(&[u8], Change, VarFault); 12] = [
        (b"a=1\0", set(b"", b"\n"), VarFault::BadName),
        (b"a=1\0", set(b"a-b", b"x"), VarFault::BadName),
        (b"a=1\0", set(&long, b"x"), VarFault::BadName),
        (b"a=1\0", set(b"a", b"\x1F"), VarFault::BadText),
        (b"a=1\0", set(b"a", b"x\x7F"), VarFault::BadText),
        (b"a=1\0", set(b"a", b"x\0b=2"), VarFault::BadText),
        (b"", set(b"a", &value), VarFault::VarsFull),
        (b"", set(name, too_long), VarFault::VarsFull),
        (b"b=\0", set(b"a", full), VarFault::VarsFull),
        (b"a=1\0", unset(b""), VarFault::BadName),
        (b"a=1\0", unset(b"a b"), VarFault::BadName),
        (b"a=1\0", unset(&long), VarFault::BadName),
    ];
    for (text, change, fault) in cases {
        assert!(rt; text.len() < 100);
        let mut plant = plant_of(rt.alloc(), text, &[])?;
        assert_eq!(rt; make(&mut plant, change), Err(fault));
        assert_eq!(rt; plant.calls(), 4);
        let after = text_of(rt.alloc(), &mut plant)?;
        assert_eq!(rt; after.as_slice(), text);
    }
    Ok(())
}

/// A text of 8,180 bytes, the most that there may be: the length of the value that is set.
#[test]
fn a_text_may_fill_its_slot(rt: HostRuntime) -> Result<(), Fail> {
    let name = [b'n'; 64];
    let value = [b'v'; 8177];
    let (one, _) = name.split_at(1);
    let (short, _) = value.split_at(8114);
    let cases: [(&[u8], &[u8], &[u8]); 3] = [
        (b"", one, &value),
        (b"", &name, short),
        (b"n=1\0", one, &value),
    ];
    for (text, name, value) in cases {
        assert!(rt; text.len() < 100);
        let mut plant = plant_of(rt.alloc(), text, &[])?;
        assert_eq!(rt; make(&mut plant, set(name, value)), Ok(()));
        assert_eq!(rt; text_of(rt.alloc(), &mut plant)?.len(), 8180);
    }
    Ok(())
}

#[test]
fn no_put_follows_the_greatest_number(rt: HostRuntime) -> Result<(), Fail> {
    let cases: [(Change, Result<(), VarFault>); 6] = [
        (set(b"a", b"2"), Err(VarFault::SeqEnd)),
        (set(b"a-", b"2"), Err(VarFault::BadName)),
        (set(b"a", b"\t"), Err(VarFault::BadText)),
        (unset(b"a"), Err(VarFault::SeqEnd)),
        (unset(b""), Err(VarFault::BadName)),
        (unset(b"b"), Ok(())),
    ];
    let mut flash = flash(rt.alloc(), b"")?;
    put(&mut flash, 17, u64::MAX, b"a=1\0");
    for (change, want) in cases {
        let mut plant = plant_with(rt.alloc(), &flash, &[])?;
        assert_eq!(rt; make(&mut plant, change), want);
        assert_eq!(rt; plant.calls(), 4);
    }
    Ok(())
}

#[test]
fn what_may_be_set_is_told(rt: HostRuntime) -> Result<(), Fail> {
    let mut plant = plant_of(rt.alloc(), b"a=1\0", &[])?;
    let vars = BootVars::open(&mut plant)?;
    assert_eq!(rt; vars.may_set(b"a", b"2"), Ok(()));
    assert_eq!(rt; vars.may_set(b"a.", b"2"), Err(VarFault::BadName));
    assert_eq!(rt; vars.may_set(b"a", b"\r"), Err(VarFault::BadText));
    assert_eq!(rt; vars.may_set(b"a", &[b'v'; 8177]), Ok(()));
    assert_eq!(rt; vars.may_set(b"b", &[b'v'; 8177]), Err(VarFault::VarsFull));
    Ok(())
}

/// Only the sectors that hold bytes are written: a gate that is closed, the body, and the gate that is opened.
#[test]
fn a_set_calls_the_plant_no_more_than_it_must(rt: HostRuntime) -> Result<(), Fail> {
    let value = [b'v'; 2000];
    for (length, sectors) in [(0, 1), (497, 1), (498, 2), (1009, 2), (1010, 3), (2000, 4)] {
        let (value, _) = value.split_at(length);
        let mut plant = plant_of(rt.alloc(), b"", &[])?;
        let change = set(b"a", value);
        assert_eq!(rt; make(&mut plant, change), Ok(()));
        // A sync and three reads, and of the put a read of the gate, the body and a sync, the gate and a sync.
        assert_eq!(rt; plant.calls(), 4 + 1 + sectors + 1 + 2);
        assert_eq!(rt; make(&mut plant, change), Ok(()));
        // The other slot's gate is open now: it is closed and synced before.
        assert_eq!(rt; plant.calls(), 2 * (4 + 1 + sectors + 1 + 2) + 2);
    }
    Ok(())
}

#[test]
fn a_change_follows_one_that_failed(rt: HostRuntime) -> Result<(), Fail> {
    let first = set(b"a", b"2");
    let then = unset(b"b");
    for call in 1..=9 {
        let mut plant = plant_of(rt.alloc(), b"a=1\0b=1\0", &[call])?;
        assert_eq!(rt;
            make(&mut plant, first),
            Err(VarFault::Fault),
            "call {call}"
        );
        let text = text_of(rt.alloc(), &mut plant)?;
        let text = text.as_slice();
        assert!(rt;
            text == b"a=1\0b=1\0".as_slice() || text == b"a=2\0b=1\0".as_slice(),
            "call {call}"
        );
        assert_eq!(rt; make(&mut plant, then), Ok(()), "call {call}");
        let text = text_of(rt.alloc(), &mut plant)?;
        let text = text.as_slice();
        assert!(rt;
            text == b"a=1\0".as_slice() || text == b"a=2\0".as_slice(),
            "call {call}"
        );
    }
    Ok(())
}
