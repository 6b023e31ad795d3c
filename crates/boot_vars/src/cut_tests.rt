//! Sequences of changes, cut at each moment.

ghost use Rattle.std.specs.Prelude.{◌<◌};

use crate::change_tests::{Change, make, text_of};
use crate::tests::plant_of;
use bd_dev::Area;
use bd_sim::{Pick, SimPlant};
use std::alloc::Global;
use std::test::Fail;

/// A generator of numbers that look random, by a linear congruence.
#[derive(Clone, Copy)]
struct Numbers {
    state: u64,
}

impl Numbers {
    /// The next number, below `end`.
    fn next(&mut self, end: u64) -> u64
        requires { 0 < end }
        ensures { result < end }
    {
        self.state = self
            .state
            .wrapping_mul(6_364_136_223_846_793_005)
            .wrapping_add(1_442_695_040_888_963_407);
        (self.state >> 33) % end
    }
}

/// How a sector is left that a power cut may have torn.
fn pick_of(number: u64) -> Pick {
    match number {
        0 => Pick::Old,
        1 => Pick::New,
        2 => Pick::Torn(0),
        _ => Pick::Torn(255),
    }
}

/// The sectors of the flash that may be torn within a call.
fn torn_sectors(alloc: Global, plant: &SimPlant, moment: u64) -> Result<Vec<u64>, Fail> {
    let mut sectors = Vec::new(alloc);
    for lba in 0..34 {
        if plant.allows(moment, &[(Area::Flash, lba, Pick::Old)]) {
            sectors.push(lba)?;
        }
    }
    Ok(sectors)
}

/// A pick for each of these sectors: the same for all, by the first four numbers of a way, else a random one each.
fn picks_of(
    alloc: Global,
    sectors: &[u64],
    way: u64,
    numbers: &mut Numbers,
) -> Result<Vec<(Area, u64, Pick)>, Fail> {
    let mut picks = Vec::new(alloc);
    for lba in sectors {
        let number = if way < 4 { way } else { numbers.next(4) };
        picks.push((Area::Flash, *lba, pick_of(number)))?;
    }
    Ok(picks)
}

/// Whether a power cut within a call leaves one of the two texts.
fn leaves(
    alloc: Global,
    plant: &SimPlant,
    moment: u64,
    picks: &[(Area, u64, Pick)],
    texts: (&[u8], &[u8]),
) -> Result<bool, Fail> {
    if !plant.allows(moment, picks) {
        return Ok(false);
    }
    let mut image = plant.image(moment, picks)?;
    let text = text_of(alloc, &mut image)?;
    let text = text.as_slice();
    Ok(text == texts.0 || text == texts.1)
}

/// Whether at each moment from call number `from` on a power cut leaves one of the two texts.
fn keeps(
    alloc: Global,
    plant: &SimPlant,
    from: u64,
    texts: (&[u8], &[u8]),
    numbers: &mut Numbers,
) -> Result<bool, Fail> {
    for moment in from..=plant.calls() {
        let sectors = torn_sectors(alloc, plant, moment)?;
        // Of one sector a mix is no more than a pick.
        let ways = match sectors.len() {
            0 => 1,
            1 => 4,
            _ => 24,
        };
        for way in 0..ways {
            let picks = picks_of(alloc, sectors.as_slice(), way, numbers)?;
            if !leaves(alloc, plant, moment, picks.as_slice(), texts)? {
                return Ok(false);
            }
        }
    }
    Ok(true)
}

/// A change of one of three variables: half of them set, with a value of up to 1,200 bytes.
fn any_change<'a>(numbers: &mut Numbers, value: &'a [u8; 1200]) -> Change<'a> {
    let name: &[u8] = match numbers.next(3) {
        0 => b"a",
        1 => b"onie_boot_reason",
        _ => b"nos_bootcmd",
    };
    let length = match numbers.next(4) {
        0 => 0,
        1 => 12,
        2 => numbers.next(100) as usize,
        _ => numbers.next(1200) as usize,
    };
    let (value, _) = value.split_at(length);
    let value = if numbers.next(2) == 0 {
        None
    } else {
        Some(value)
    };
    Change { name, value }
}

/// Whether each cut of up to six changes leaves the variables before or after the one that ran.
fn survives(alloc: Global, seed: u64) -> Result<bool, Fail> {
    let mut numbers = Numbers { state: seed };
    let value = [b'v'; 1200];
    let mut plant = plant_of(alloc, b"a=1\0", &[])?;
    for _ in 0..1 + numbers.next(6) {
        let before = text_of(alloc, &mut plant)?;
        let from = plant.calls();
        let change = any_change(&mut numbers, &value);
        make(&mut plant, change)?;
        let after = text_of(alloc, &mut plant)?;
        let texts = (before.as_slice(), after.as_slice());
        if !keeps(alloc, &plant, from, texts, &mut numbers)? {
            return Ok(false);
        }
    }
    Ok(true)
}

/// Whether each of 25 sequences of changes survives each cut.
fn all_survive(alloc: Global, first: u64) -> Result<bool, Fail>
    requires { first < 1000 }
{
    for seed in first..first + 25 {
        if !survives(alloc, seed)? {
            return Ok(false);
        }
    }
    Ok(true)
}

#[test]
fn a_crash_of_a_change_leaves_before_or_after_first(rt: HostRuntime) -> Result<(), Fail> {
    assert!(rt; all_survive(rt.alloc(), 0)?);
    Ok(())
}

#[test]
fn a_crash_of_a_change_leaves_before_or_after_second(rt: HostRuntime) -> Result<(), Fail> {
    assert!(rt; all_survive(rt.alloc(), 25)?);
    Ok(())
}

#[test]
fn a_crash_of_a_change_leaves_before_or_after_third(rt: HostRuntime) -> Result<(), Fail> {
    assert!(rt; all_survive(rt.alloc(), 50)?);
    Ok(())
}

#[test]
fn a_crash_of_a_change_leaves_before_or_after_fourth(rt: HostRuntime) -> Result<(), Fail> {
    assert!(rt; all_survive(rt.alloc(), 75)?);
    Ok(())
}

#[test]
fn a_crash_of_a_change_leaves_before_or_after_fifth(rt: HostRuntime) -> Result<(), Fail> {
    assert!(rt; all_survive(rt.alloc(), 100)?);
    Ok(())
}

#[test]
fn a_crash_of_a_change_leaves_before_or_after_sixth(rt: HostRuntime) -> Result<(), Fail> {
    assert!(rt; all_survive(rt.alloc(), 125)?);
    Ok(())
}

#[test]
fn a_crash_of_a_change_leaves_before_or_after_seventh(rt: HostRuntime) -> Result<(), Fail> {
    assert!(rt; all_survive(rt.alloc(), 150)?);
    Ok(())
}

#[test]
fn a_crash_of_a_change_leaves_before_or_after_eighth(rt: HostRuntime) -> Result<(), Fail> {
    assert!(rt; all_survive(rt.alloc(), 175)?);
    Ok(())
}

/// Two sets, one after the other.
#[test]
fn a_crash_of_two_sets_leaves_the_one_or_the_other(rt: HostRuntime) -> Result<(), Fail> {
    let mut numbers = Numbers { state: 1 };
    let mut plant = plant_of(rt.alloc(), b"onie_boot_reason=install\0", &[])?;
    let steps: [(&[u8], &[u8], &[u8]); 2] = [
        (
            b"1",
            b"onie_boot_reason=install\0",
            b"onie_boot_reason=install\0a=1\0",
        ),
        (
            b"2",
            b"onie_boot_reason=install\0a=1\0",
            b"onie_boot_reason=install\0a=2\0",
        ),
    ];
    for (value, before, after) in steps {
        let from = plant.calls();
        let change = Change {
            name: b"a",
            value: Some(value),
        };
        make(&mut plant, change)?;
        assert!(rt; keeps(rt.alloc(), &plant, from, (before, after), &mut numbers)?);
        let text = text_of(rt.alloc(), &mut plant)?;
        assert_eq!(rt; text.as_slice(), after);
    }
    Ok(())
}
