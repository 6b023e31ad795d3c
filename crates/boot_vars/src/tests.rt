//! Texts of variables that stand here as the format has them, in the flash of a plant in memory.

ghost use Rattle.std.specs.Prelude.{◌≡◌, ◌*◌, ◌+◌, ◌≤◌, length, IfOk};

use super::*;
use bd_sim::SimPlant;
use bd_text::Guid;
use std::alloc::Global;
use std::test::Fail;

const OPEN: &[u8; 8] = b"ONIEOPEN";

/// Puts bytes at an offset, where there is room.
fn fill(flash: &mut [u8], at: usize, bytes: &[u8])
    ensures { length flash.new ≡ length flash.old }
{
    if at <= flash.len() && bytes.len() <= flash.len() - at {
        flash[at..at + bytes.len()].copy_from_slice(bytes);
    }
}

/// Makes the slot whose gate is in this sector, with an open gate.
pub(crate) fn put(flash: &mut [u8], gate: usize, number: u64, text: &[u8])
    requires gate { gate ≤ 34 }
    requires short { length text.now ≤ 8180 }
    ensures { length flash.new ≡ length flash.old }
{
    let at = 512 * gate;
    fill(flash, at, OPEN);
    fill(flash, at + 512, &number.to_le_bytes());
    fill(flash, at + 520, &(text.len() as u32).to_le_bytes());
    fill(flash, at + 524, text);
}

/// A flash of 34 sectors, whose second slot holds the text, and whose first one is closed.
pub(crate) fn flash(alloc: Global, text: &[u8]) -> Result<Vec<u8>, Fail>
    requires { length text.now ≤ 8180 }
    ensures { IfOk result (λ flash. length flash.items ≡ 17408) }
{
    let mut flash = [0; 512].as_slice().repeat(alloc, 34)?;
    if flash.len() != 17408 {
        return Err(Fail::new("a size"));
    }
    put(&mut flash, 17, 9, text);
    Ok(flash)
}

/// A plant with the flash of this text, whose calls of these numbers fail. It promises nothing: what a plant in memory
/// is need not be read for each test.
pub(crate) fn plant_of(alloc: Global, text: &[u8], fails: &[u64]) -> Result<SimPlant, Fail>
    requires { length text.now ≤ 8180 }
{
    plant_with(alloc, &flash(alloc, text)?, fails)
}

/// A plant with this flash.
pub(crate) fn plant_with(alloc: Global, flash: &[u8], fails: &[u64]) -> Result<SimPlant, Fail>
    requires { length flash.now ≡ 17408 }
{
    Ok(SimPlant::new(alloc, &[], flash, fails)?)
}

/// Opens the variables of this text.
fn open(rt: &HostRuntime, text: &[u8]) -> Result<Result<BootVars, VarsFault>, Fail>
    requires { length text.now ≤ 8180 }
{
    let mut plant = plant_of(rt.alloc(), text, &[])?;
    Ok(BootVars::open(&mut plant))
}

/// Whether the variable of this name has this value.
fn has(vars: &BootVars, name: &[u8], value: &[u8]) -> bool {
    match vars.get(name) {
        Some(found) => found == value,
        None => false,
    }
}

#[test]
fn variables_are_read(rt: HostRuntime) -> Result<(), Fail> {
    let text = b"a=1\0B_2=x = y~\0empty=\0";
    let opened = open(&rt, text)?;
    assert!(rt; opened.is_ok());
    if let Ok(vars) = opened {
        assert_eq!(rt; vars.text(), text.as_slice());
        assert!(rt; has(&vars, b"a", b"1"));
        assert!(rt; has(&vars, b"B_2", b"x = y~"));
        assert!(rt; has(&vars, b"empty", b""));
        let absent: [&[u8]; 6] = [b"", b"A", b"a=1", b"B_2=x ", b"b_2", b"x "];
        for name in absent {
            assert!(rt; vars.get(name).is_none());
        }
    }
    Ok(())
}

#[test]
fn the_first_wrong_line_is_told(rt: HostRuntime) -> Result<(), Fail> {
    let cases: [(&[u8], u32); 14] = [
        (b"\0", 0),
        (b"a=1\0\0", 4),
        (b"a\0", 0),
        (b"a=1\0b\0c=2\0", 4),
        (b"=1\0", 0),
        (b"a=1", 0),
        (b"a=1\0bc=2", 4),
        (b"a=1\0b=\0a=2\0", 7),
        (b"a=1\0a=1\0a=1\0", 4),
        (b"a=\x1F\0", 0),
        (b"a=1\0b=\x7F\0", 4),
        (b"a=1\0b=2\n\0", 4),
        (b"a b=1\0", 0),
        (b"a=1\0-=2\0c\0", 4),
    ];
    for (text, at) in cases {
        assert!(rt; text.len() < 100);
        let opened = open(&rt, text)?;
        assert!(rt;
            matches!(&opened, Err(VarsFault::BadLine { at: a }) if *a == at),
            "{at}"
        );
    }
    Ok(())
}

#[test]
fn names_and_values_keep_their_bounds(rt: HostRuntime) -> Result<(), Fail> {
    let mut line = [b'n'; 67];
    line[64..].copy_from_slice(b"=v\0");
    let opened = open(&rt, &line)?;
    assert!(rt; opened.is_ok());
    if let Ok(vars) = opened {
        assert!(rt; has(&vars, &line[..64], b"v"));
    }
    let mut line = [b'n'; 68];
    line[65..].copy_from_slice(b"=v\0");
    assert!(rt; matches!(&open(&rt, &line)?, Err(VarsFault::BadLine { at: 0 })));
    assert!(rt; open(&rt, b"azAZ09_= ~\0")?.is_ok());
    for byte in [b'/', b':', b'@', b'[', b'`', b'{', b'^', 0x80_u8, b' '] {
        let line = [b'a', byte, b'=', b'1', 0];
        assert!(rt;
            matches!(&open(&rt, &line)?, Err(VarsFault::BadLine { at: 0 })),
            "{byte}"
        );
    }
    Ok(())
}

#[test]
fn a_text_fills_its_slot(rt: HostRuntime) -> Result<(), Fail> {
    assert!(rt; open(&rt, b"")?.is_ok());
    let mut text = [b'v'; 8180];
    text[..2].copy_from_slice(b"n=");
    assert!(rt; matches!(&open(&rt, &text)?, Err(VarsFault::BadLine { at: 0 })));
    text[8179] = 0;
    let opened = open(&rt, &text)?;
    assert!(rt; opened.is_ok());
    if let Ok(vars) = opened {
        assert_eq!(rt; vars.text().len(), 8180);
        assert!(rt; has(&vars, b"n", &text[2..8179]));
    }
    text[8170..].copy_from_slice(b"vvvv\0m=v\0\0");
    assert!(rt; matches!(&open(&rt, &text)?, Err(VarsFault::BadLine { at: 8179 })));
    Ok(())
}

#[test]
fn modes_are_asked_for(rt: HostRuntime) -> Result<(), Fail> {
    let cases: [(&[u8], Option<Mode>); 9] = [
        (b"onie_boot_reason=install\0", Some(Mode::Install)),
        (b"a=b\0onie_boot_reason=rescue\0", Some(Mode::Rescue)),
        (b"onie_boot_reason=uninstall\0c=d\0", Some(Mode::Uninstall)),
        (b"onie_boot_reason=update\0", Some(Mode::Update)),
        (b"onie_boot_reason=embed\0", Some(Mode::Embed)),
        (b"onie_boot_reason=Install\0", None),
        (b"onie_boot_reason=\0", None),
        (b"nos_bootcmd=install\0", None),
        (b"boot_reason=install\0xonie_boot_reason=install\0", None),
    ];
    for (text, mode) in cases {
        assert!(rt; text.len() < 100);
        let opened = open(&rt, text)?;
        assert!(rt; opened.is_ok());
        if let Ok(vars) = opened {
            assert_eq!(rt; vars.mode(), mode);
        }
    }
    Ok(())
}

#[test]
fn a_system_is_named(rt: HostRuntime) -> Result<(), Fail> {
    let guid = Guid {
        bytes: [
            0xD5, 0xF7, 0x12, 0x74, 0x56, 0xA1, 0x13, 0x4B, 0x81, 0xDC, 0x86, 0x71, 0x74, 0x92,
            0x93, 0x25,
        ],
    };
    let cases: [(&[u8], Option<Guid>); 9] = [
        (
            b"nos_bootcmd=boot 7412f7d5-a156-4b13-81dc-867174929325\0",
            Some(guid),
        ),
        (
            b"x=\0nos_bootcmd=boot 7412F7D5-A156-4B13-81DC-867174929325\0",
            Some(guid),
        ),
        (
            b"nos_bootcmd=boot  7412f7d5-a156-4b13-81dc-867174929325\0",
            None,
        ),
        (
            b"nos_bootcmd=boot 7412f7d5-a156-4b13-81dc-867174929325 \0",
            None,
        ),
        (
            b"nos_bootcmd=Boot 7412f7d5-a156-4b13-81dc-867174929325\0",
            None,
        ),
        (b"nos_bootcmd=7412f7d5-a156-4b13-81dc-867174929325\0", None),
        (
            b"nos_bootcmd=boot 7412f7d5-a156-4b13-81dc-86717492932\0",
            None,
        ),
        (b"nos_bootcmd=\0", None),
        (
            b"onie_boot_reason=boot 7412f7d5-a156-4b13-81dc-867174929325\0",
            None,
        ),
    ];
    for (text, named) in cases {
        assert!(rt; text.len() < 100);
        let opened = open(&rt, text)?;
        assert!(rt; opened.is_ok());
        if let Ok(vars) = opened {
            assert_eq!(rt; vars.named(), named);
        }
    }
    Ok(())
}

/// Why no variables are read from this flash beside a disk of these bytes, or nothing where some are.
fn fault_beside(alloc: Global, disk: &[u8], flash: &[u8]) -> Result<Option<VarsFault>, Fail> {
    if disk.len() > 17408
        || disk.len() % 512 != 0
        || flash.len() > 17408
        || flash.len() % 512 != 0
    {
        return Err(Fail::new("a size"));
    }
    let mut plant = SimPlant::new(alloc, disk, flash, &[])?;
    match BootVars::open(&mut plant) {
        Ok(_) => Ok(None),
        Err(fault) => Ok(Some(fault)),
    }
}

#[test]
fn the_current_slot_alone_is_read(rt: HostRuntime) -> Result<(), Fail> {
    let mut flash = flash(rt.alloc(), b"bad\0")?;
    put(&mut flash, 0, 8, b"good=1\0");
    let bad = VarsFault::BadLine { at: 0 };
    assert_eq!(rt; fault_beside(rt.alloc(), &[], &flash)?, Some(bad));
    put(&mut flash, 0, 9, b"good=1\0");
    assert_eq!(rt; fault_beside(rt.alloc(), &[], &flash)?, None);
    Ok(())
}

/// A disk that holds what a flash would counts for nothing: beside a flash of 33 sectors, and one of zeros.
#[test]
fn the_flash_alone_has_variables(rt: HostRuntime) -> Result<(), Fail> {
    let flash = flash(rt.alloc(), b"a=1\0")?;
    let none = Some(VarsFault::NoSlot);
    let (all_but_one, _) = flash.split_at(16896);
    assert_eq!(rt; fault_beside(rt.alloc(), &flash, all_but_one)?, none);
    assert_eq!(rt; fault_beside(rt.alloc(), &flash, &[0; 17408])?, none);
    Ok(())
}

#[test]
fn a_call_that_fails_is_a_fault(rt: HostRuntime) -> Result<(), Fail> {
    for call in 1..=3 {
        let mut plant = plant_of(rt.alloc(), b"a=1\0", &[call])?;
        assert!(rt;
            matches!(&BootVars::open(&mut plant), Err(VarsFault::Fault)),
            "{call}"
        );
        assert!(rt; BootVars::open(&mut plant).is_ok(), "{call}");
    }
    Ok(())
}
