//! `set` and `unset` over a flash in memory: what they print, keep and leave alone.

ghost use Rattle.std.specs.Prelude.{◌≡◌, IfOk, length};

use crate::calls::run;
use bd_sim::SimPlant;
use onie_cli::{Outcome, RefusedKind, SoundKind, Status};
use std::alloc::Global;
use std::test::Fail;

/// A flash whose second slot has this text, of fewer than 200 bytes, under this number, and whose first slot is closed.
fn flash(alloc: Global, number: u64, text: &[u8]) -> Result<Vec<u8>, Fail>
    ensures { IfOk result (λ flash. length flash.items ≡ 17408) }
{
    let mut flash = [0; 512].as_slice().repeat(alloc, 34)?;
    if flash.len() != 17_408 {
        return Err(Fail::new("a size"));
    }
    flash[8704..8712].copy_from_slice(b"ONIEOPEN");
    flash[9216..9224].copy_from_slice(&number.to_le_bytes());
    flash[9224] = text.len().min(255) as u8;
    let (front, _) = text.split_at(text.len().min(199));
    flash[9228..9228 + front.len()].copy_from_slice(front);
    Ok(flash)
}

const INSTALL: &[u8] = b"onie_boot_reason=install\0";

/// Whether the flash keeps this text.
fn keeps(plant: &mut SimPlant, text: &[u8]) -> Result<bool, Fail> {
    let vars = boot_vars::BootVars::open(plant)?;
    Ok(vars.text() == text)
}

const STORED: Status = Status::Done(Outcome::Stored);

#[test]
fn variables_are_set_and_unset(rt: HostRuntime) -> Result<(), Fail> {
    let cases: [(&[&str], Status, &[u8], &[u8]); 9] = [
        (
            &["set", "a", "1"],
            STORED,
            b"",
            b"onie_boot_reason=install\0a=1\0",
        ),
        (
            &["set", "a", ""],
            STORED,
            b"",
            b"onie_boot_reason=install\0a=\0",
        ),
        (
            &["set", "onie_boot_reason", "rescue"],
            STORED,
            b"",
            b"onie_boot_reason=rescue\0",
        ),
        (&["unset", "onie_boot_reason"], STORED, b"", b""),
        (&["unset", "zzz"], STORED, b"", INSTALL),
        (
            &["set", "a-b", "x"],
            Status::Refused(RefusedKind::BadName),
            b"onie: refused: bad name\n",
            INSTALL,
        ),
        (
            &["set", "", "x"],
            Status::Refused(RefusedKind::BadName),
            b"onie: refused: bad name\n",
            INSTALL,
        ),
        (
            &["set", "a", "x\n"],
            Status::Refused(RefusedKind::BadText),
            b"onie: refused: bad text\n",
            INSTALL,
        ),
        (
            &["unset", "a b"],
            Status::Refused(RefusedKind::BadName),
            b"onie: refused: bad name\n",
            INSTALL,
        ),
    ];
    for (line, want, printed, text) in cases {
        let mut plant = SimPlant::new(rt.alloc(), &[], &flash(rt.alloc(), 7, INSTALL)?, &[])?;
        let (status, console) = run(rt.alloc(), &mut plant, line, 0)?;
        assert_eq!(rt; status, want);
        assert_eq!(rt; console.as_slice(), printed);
        assert!(rt; keeps(&mut plant, text)?);
    }
    Ok(())
}

/// The text of the variables has at most 8,180 bytes.
#[test]
fn a_flash_takes_so_many_bytes(rt: HostRuntime) -> Result<(), Fail> {
    let value = String::from_utf8(Vec::from_slice(rt.alloc(), &[b'v'; 8153])?)?;
    let value = value.as_str();
    for (long, want, printed) in [
        (8152, STORED, ""),
        (
            8153,
            Status::Refused(RefusedKind::VarsFull),
            "onie: refused: variables full\n",
        ),
    ] {
        let Some(value) = value.get(..long) else {
            continue;
        };
        let mut plant = SimPlant::new(rt.alloc(), &[], &flash(rt.alloc(), 7, INSTALL)?, &[])?;
        let (status, console) = run(rt.alloc(), &mut plant, &["set", "a", value], 0)?;
        assert_eq!(rt; status, want);
        assert_eq!(rt; console.as_slice(), printed.as_bytes());
    }
    Ok(())
}

#[test]
fn the_greatest_number_ends_the_sequence(rt: HostRuntime) -> Result<(), Fail> {
    let cases: [(&[&str], Status, &[u8]); 3] = [
        (
            &["set", "a", "b"],
            Status::Refused(RefusedKind::SeqEnd),
            b"onie: refused: sequence end\n",
        ),
        (
            &["unset", "onie_boot_reason"],
            Status::Refused(RefusedKind::SeqEnd),
            b"onie: refused: sequence end\n",
        ),
        (&["unset", "a"], STORED, b""),
    ];
    for (line, want, printed) in cases {
        let mut plant = SimPlant::new(
            rt.alloc(),
            &[],
            &flash(rt.alloc(), u64::MAX, INSTALL)?,
            &[],
        )?;
        let (status, console) = run(rt.alloc(), &mut plant, line, 0)?;
        assert_eq!(rt; status, want);
        assert_eq!(rt; console.as_slice(), printed);
        // A sync and the three reads of the opening.
        assert_eq!(rt; plant.calls(), 4);
        assert!(rt; keeps(&mut plant, INSTALL)?);
    }
    Ok(())
}

#[test]
fn a_flash_without_variables_takes_none(rt: HostRuntime) -> Result<(), Fail> {
    for text in [b"".as_slice(), b"bad\0"] {
        let mut flash = flash(rt.alloc(), 7, text)?;
        if text.is_empty() {
            flash[8704] = 0;
        }
        let lines: [&[&str]; 2] = [&["set", "a", "b"], &["unset", "a"]];
        for line in lines {
            let mut plant = SimPlant::new(rt.alloc(), &[], &flash, &[])?;
            let (status, console) = run(rt.alloc(), &mut plant, line, 0)?;
            assert_eq!(rt; status, Status::NotSound(SoundKind::NoVars));
            assert_eq!(rt;
                console.as_slice(),
                b"onie: not sound: no variables\n".as_slice()
            );
        }
    }
    Ok(())
}

#[test]
fn each_fault_of_the_flash_is_told(rt: HostRuntime) -> Result<(), Fail> {
    for call in 1..=9 {
        let mut plant = SimPlant::new(rt.alloc(), &[], &flash(rt.alloc(), 7, INSTALL)?, &[call])?;
        let (status, console) = run(rt.alloc(), &mut plant, &["set", "a", "1"], 0)?;
        assert_eq!(rt; status, Status::PlantFault, "{call}");
        assert_eq!(rt; console.as_slice(), b"onie: plant fault\n".as_slice());
        let (status, _) = run(rt.alloc(), &mut plant, &["set", "a", "2"], 0)?;
        assert_eq!(rt; status, STORED, "{call}");
        assert!(rt;
            keeps(&mut plant, b"onie_boot_reason=install\0a=2\0")?,
            "{call}"
        );
    }
    Ok(())
}

#[test]
fn a_fault_of_the_console_is_told(rt: HostRuntime) -> Result<(), Fail> {
    let mut plant = SimPlant::new(rt.alloc(), &[], &flash(rt.alloc(), 7, INSTALL)?, &[])?;
    let (status, console) = run(rt.alloc(), &mut plant, &["set", "a.", "1"], 1)?;
    assert_eq!(rt; status, Status::SinkFault);
    assert!(rt; console.as_slice().is_empty());
    // Nothing is written where nothing is refused.
    let (status, console) = run(rt.alloc(), &mut plant, &["set", "a", "1"], 1)?;
    assert_eq!(rt; status, STORED);
    assert!(rt; console.as_slice().is_empty());
    Ok(())
}
