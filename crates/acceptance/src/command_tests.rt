//! The command over devices in memory: the texts and statuses that its users are promised.

ghost use Rattle.std.specs.Prelude.{◌≤◌, length};

use crate::calls::answer;
use bd_dev::{
    Bytes, DevFault, Eeprom, Failed, Media, MemEeprom, MemMedia, MemSink, MemSource, Names,
};
use bd_sim::SimPlant;
use net_script::ScriptKind;
use onie_cli::{EepromKind, Outcome, RefusedKind, SoundKind, Status};
use std::alloc::Global;
use std::test::Fail;
use tlvinfo::{IdentFault, TlvKind};

const BOARD: &[u8] =
    b"TlvInfo\0\x01\0$(\x14x86_64-kvm_x86_64-r0$\x06\0\x11\"3DU\xfe\x04\x99!\xba\x7f";

/// What `discover` prints for that board over the media of [`media`].
const TWO_VOLUMES: &str = "\
miss file://usb0/onie-installer-x86_64-kvm_x86_64-r0: no file\n\
miss file://usb0/onie-installer-x86_64-kvm_x86_64-r0.bin: no file\n\
miss file://usb0/onie-installer-x86_64-kvm_x86_64: no file\n\
miss file://usb0/onie-installer-x86_64-kvm_x86_64.bin: no file\n\
miss file://usb0/onie-installer-kvm_x86_64: no file\n\
miss file://usb0/onie-installer-kvm_x86_64.bin: no file\n\
miss file://usb0/onie-installer-x86_64: no file\n\
miss file://usb0/onie-installer-x86_64.bin: no file\n\
found file://usb0/onie-installer: 5 bytes\n\
miss file://usb0/onie-installer.bin: no file\n\
found file://usb1/onie-installer-x86_64-kvm_x86_64-r0: 9 bytes\n\
miss file://usb1/onie-installer-x86_64-kvm_x86_64-r0.bin: no file\n\
miss file://usb1/onie-installer-x86_64-kvm_x86_64: no file\n\
miss file://usb1/onie-installer-x86_64-kvm_x86_64.bin: no file\n\
miss file://usb1/onie-installer-kvm_x86_64: no file\n\
miss file://usb1/onie-installer-kvm_x86_64.bin: no file\n\
miss file://usb1/onie-installer-x86_64: no file\n\
miss file://usb1/onie-installer-x86_64.bin: no file\n\
miss file://usb1/onie-installer: no file\n\
miss file://usb1/onie-installer.bin: no file\n\
";

/// Two volumes with an installer each, and the volume of the network, whose calls of these numbers fail.
fn media(alloc: Global, fails: &[u64]) -> Result<MemMedia, Fail> {
    let mut media = MemMedia::new(alloc, fails)?;
    media.add(b"net", b"onie-installer", b"x")?;
    media.add(b"usb0", b"onie-installer", b"12345")?;
    media.add(
        b"usb1",
        b"onie-installer-x86_64-kvm_x86_64-r0",
        b"123456789",
    )?;
    Ok(media)
}

/// The words of a line, which are parted by single spaces.
fn words(alloc: Global, line: &str) -> Result<Vec<String>, Fail> {
    let mut words = Vec::new(alloc);
    for word in line.split(' ') {
        words.push(String::from_str(alloc, word)?)?;
    }
    Ok(words)
}

/// The numbers of the calls that fail, of each device.
#[derive(Clone, Copy)]
struct Fails {
    eeprom: u64,
    media: u64,
    console: u64,
}

/// No call has the number 0.
const NO_FAILS: Fails = Fails {
    eeprom: 0,
    media: 0,
    console: 0,
};

/// The status of a call with the words of the line, and what the console took.
fn run(alloc: Global, line: &str, bytes: &[u8], fails: Fails) -> Result<(Status, MemSink), Fail>
    requires { length bytes.now ≤ 2048 }
{
    let mut eeprom = MemEeprom::new(alloc, bytes, &[fails.eeprom])?;
    run_on(alloc, line, &mut eeprom, fails)
}

/// The same over an EEPROM that stays.
fn run_on(
    alloc: Global,
    line: &str,
    eeprom: &mut MemEeprom,
    fails: Fails,
) -> Result<(Status, MemSink), Fail> {
    let words = words(alloc, line)?;
    run_words(alloc, &words, eeprom, fails)
}

/// The same with words that may hold spaces.
fn call(
    alloc: Global,
    list: &[&str],
    eeprom: &mut MemEeprom,
    fails: Fails,
) -> Result<(Status, MemSink), Fail> {
    let mut words = Vec::new(alloc);
    for word in list {
        words.push(String::from_str(alloc, word)?)?;
    }
    run_words(alloc, &words, eeprom, fails)
}

fn run_words(
    alloc: Global,
    words: &[String],
    eeprom: &mut MemEeprom,
    fails: Fails,
) -> Result<(Status, MemSink), Fail> {
    let mut media = media(alloc, &[fails.media])?;
    let mut console = MemSink::new(alloc, &[fails.console])?;
    // No command of these tests calls the plant, whose first call fails.
    let mut plant = SimPlant::new(alloc, b"", b"", &[1])?;
    let mut script = MemSource::new(alloc, b"", &[])?;
    let mut trace = MemSink::new(alloc, &[1])?;
    let status = answer(
        alloc,
        words,
        &mut plant,
        eeprom,
        &mut media,
        &mut script,
        &mut console,
        &mut trace,
    );
    Ok((status, console))
}

/// So many lines of what `discover` prints, and then another line.
fn lines_and(alloc: Global, count: usize, last: &str) -> Result<String, Fail> {
    let mut text = String::new(alloc);
    for line in TWO_VOLUMES.lines().take(count) {
        text.push_str(line)?;
        text.push_str("\n")?;
    }
    text.push_str(last)?;
    Ok(text)
}

#[test]
fn lists_two_volumes(rt: HostRuntime) -> Result<(), Fail> {
    let (status, console) = run(rt.alloc(), "discover", BOARD, NO_FAILS)?;
    assert_eq!(rt; status, Status::Done(Outcome::Printed));
    assert_eq!(rt; console.as_slice(), TWO_VOLUMES.as_bytes());
    Ok(())
}

#[test]
fn other_words_are_usage(rt: HostRuntime) -> Result<(), Fail> {
    for line in [
        "",
        "boot",
        "status all",
        "status ",
        "Status",
        "boot rounds=0",
        "boot rounds=01",
        "boot boot",
        "set",
        "set a",
        "set a b c",
        "Set a b",
        "unset",
        "unset a b",
        "unset a b c",
        "eeprom set",
        "eeprom set 0x21",
        "eeprom set 21 X",
        "eeprom set 0X21 X",
        "eeprom set 0x2 X",
        "eeprom set 0x021 X",
        "eeprom set 0x+1 X",
        "eeprom set 0x21 X Y",
        "eeprom get 0x21 X",
        "eeprom all",
        "discover all",
        "Discover",
    ] {
        let (status, console) = run(rt.alloc(), line, BOARD, NO_FAILS)?;
        assert_eq!(rt; status, Status::Usage, "{line}");
        assert_eq!(rt; console.as_slice(), b"onie: usage\n".as_slice());
    }
    Ok(())
}

#[test]
fn refuses_an_eeprom_without_identity(rt: HostRuntime) -> Result<(), Fail> {
    for (bytes, kind, line) in [
        (
            b"".as_slice(),
            EepromKind::Tlv(TlvKind::NotTlv),
            "onie: eeprom: not tlv\n",
        ),
        (
            b"TlvInfo\0\x01\0$(\x14x86_64-kvm_x86_64-r0\xfe\x04u\xc1>R$\x06\0\x11\"3DU".as_slice(),
            EepromKind::Tlv(TlvKind::AfterCrc { at: 39 }),
            "onie: eeprom: after crc\n",
        ),
        (
            b"TlvInfo\0\x01\0$(\x14x86_64-kvm_x86_64-r0$\x06\0\x11\"3DU\xfe\x04\x99!\xba~".as_slice(),
            EepromKind::Tlv(TlvKind::Crc {
                kept: 0x9921_ba7e,
                computed: 0x9921_ba7f,
            }),
            "onie: eeprom: crc\n",
        ),
        (
            b"TlvInfo\0\x01\0\x0e$\x06\0\x11\"3DU\xfe\x04\xdd\xa2\xae_".as_slice(),
            EepromKind::Ident(IdentFault::NoPlatform),
            "onie: eeprom: no platform\n",
        ),
        (
            b"TlvInfo\0\x01\0\x16(\x06x86_64$\x06\0\x11\"3DU\xfe\x04\xc5\x7f\xacR".as_slice(),
            EepromKind::Ident(IdentFault::Platform),
            "onie: eeprom: platform\n",
        ),
        (
            b"TlvInfo\0\x01\0\x1c(\x14x86_64-kvm_x86_64-r0\xfe\x04\xb1\xf3\xc4W".as_slice(),
            EepromKind::Ident(IdentFault::NoMac),
            "onie: eeprom: no mac\n",
        ),
    ] {
        assert!(rt; bytes.len() <= 2048);
        let (status, console) = run(rt.alloc(), "discover", bytes, NO_FAILS)?;
        assert_eq!(rt; status, Status::BadEeprom(kind));
        assert_eq!(rt; console.as_slice(), line.as_bytes());
    }
    Ok(())
}

/// One call of a device fails, or one of two devices, whose number among that device's calls is given, from 1.
#[test]
fn a_fault_ends_the_call(rt: HostRuntime) -> Result<(), Fail> {
    for (eeprom, media, console, want, count, last) in [
        (1, 0, 0, Status::EepromFault, 0, "onie: eeprom fault\n"),
        (0, 1, 0, Status::MediaFault, 0, "onie: media fault\n"),
        (0, 2, 0, Status::MediaFault, 0, "onie: media fault\n"),
        (0, 3, 0, Status::MediaFault, 1, "onie: media fault\n"),
        (0, 10, 0, Status::MediaFault, 8, "onie: media fault\n"),
        (0, 11, 0, Status::MediaFault, 8, "onie: media fault\n"),
        (0, 12, 0, Status::MediaFault, 9, "onie: media fault\n"),
        (0, 0, 1, Status::SinkFault, 0, ""),
        (0, 0, 20, Status::SinkFault, 19, ""),
        (1, 0, 1, Status::SinkFault, 0, ""),
        (0, 3, 2, Status::SinkFault, 1, ""),
    ] {
        let fails = Fails {
            eeprom,
            media,
            console,
        };
        let (status, console) = run(rt.alloc(), "discover", BOARD, fails)?;
        assert_eq!(rt; status, want);
        let text = lines_and(rt.alloc(), count, last)?;
        assert_eq!(rt; console.as_slice(), text.as_bytes());
    }
    Ok(())
}

/// Media with one volume, in which each file has five bytes when it is looked for, and three when it is read.
#[derive(Drop)]
struct Shrinking;

impl Media for Shrinking {
    ghost use Rattle.std.specs.Prelude.{None};

    ghost content = { λ _. None };

    ghost faults = { λ _. 0 };

    fn volumes(&mut self, alloc: Global) -> Result<Names, DevFault> {
        let mut names = Names::new(alloc);
        names.push(Bytes::from_slice(alloc, b"usb0")?)?;
        Ok(names)
    }

    fn find(&mut self, _volume: &[u8], _name: &[u8]) -> Result<Option<u64>, Failed> {
        Ok(Some(5))
    }

    fn read(
        &mut self,
        _volume: &[u8],
        _name: &[u8],
        at: u64,
        out: &mut [u8],
    ) -> Result<usize, Failed> {
        Ok(if at < 3 { out.len().min(3) } else { 0 })
    }
}

/// What `discover` answers over such media, and what the console took.
fn discover_shrinking(alloc: Global) -> Result<(Status, MemSink), Fail> {
    let words = words(alloc, "discover")?;
    let mut plant = SimPlant::new(alloc, b"", b"", &[1])?;
    let mut eeprom = MemEeprom::new(alloc, BOARD, &[])?;
    let mut script = MemSource::new(alloc, b"", &[])?;
    let mut console = MemSink::new(alloc, &[])?;
    let mut trace = MemSink::new(alloc, &[1])?;
    let status = answer(
        alloc,
        &words,
        &mut plant,
        &mut eeprom,
        &mut Shrinking,
        &mut script,
        &mut console,
        &mut trace,
    );
    Ok((status, console))
}

#[test]
fn a_file_that_shrinks_is_short(rt: HostRuntime) -> Result<(), Fail> {
    let (status, console) = discover_shrinking(rt.alloc())?;
    assert_eq!(rt; status, Status::Done(Outcome::Printed));
    let first = "miss file://usb0/onie-installer-x86_64-kvm_x86_64-r0: short 5 3\n";
    assert!(rt; console.as_slice().starts_with(first.as_bytes()));
    Ok(())
}

#[test]
fn prints_the_fields(rt: HostRuntime) -> Result<(), Fail> {
    let (status, console) = run(rt.alloc(), "eeprom", BOARD, NO_FAILS)?;
    assert_eq!(rt; status, Status::Done(Outcome::Printed));
    let text = b"0x28 x86_64-kvm_x86_64-r0\n0x24 00:11:22:33:44:55\n".as_slice();
    assert_eq!(rt; console.as_slice(), text);
    Ok(())
}

/// What `eeprom` prints where a call of a device fails, the console's in each line.
#[test]
fn a_fault_ends_the_fields(rt: HostRuntime) -> Result<(), Fail> {
    for (eeprom, console, want, text) in [
        (
            1,
            0,
            Status::EepromFault,
            b"onie: eeprom fault\n".as_slice(),
        ),
        (0, 1, Status::SinkFault, b""),
        (0, 2, Status::SinkFault, b"0x28 x86_64-kvm_x86_64-r0\n"),
    ] {
        let fails = Fails {
            eeprom,
            media: 0,
            console,
        };
        let (status, console) = run(rt.alloc(), "eeprom", BOARD, fails)?;
        assert_eq!(rt; status, want);
        assert_eq!(rt; console.as_slice(), text);
    }
    Ok(())
}

/// The board's bytes with the field 2A, whose value is 256.
const WITH_256: &[u8] =
    b"TlvInfo\0\x01\0((\x14x86_64-kvm_x86_64-r0$\x06\0\x11\"3DU*\x02\x01\0\xfe\x04^i\x15\x04";

/// A status with its line, and what the EEPROM holds then.
#[test]
fn sets_one_field(rt: HostRuntime) -> Result<(), Fail> {
    let bad_code = Status::Refused(RefusedKind::BadCode);
    let bad_value = Status::Refused(RefusedKind::BadValue);
    for (line, failing, status, text, bytes) in [
        (
            "eeprom set 0x2A 256",
            0,
            Status::Done(Outcome::Stored),
            "",
            WITH_256,
        ),
        (
            "eeprom set 0x2a 256",
            0,
            Status::Done(Outcome::Stored),
            "",
            WITH_256,
        ),
        (
            "eeprom set 0x2A 0256",
            0,
            bad_value,
            "onie: refused: bad value\n",
            BOARD,
        ),
        (
            "eeprom set 0x2A 65536",
            0,
            bad_value,
            "onie: refused: bad value\n",
            BOARD,
        ),
        (
            "eeprom set 0xFE 00",
            0,
            bad_code,
            "onie: refused: bad code\n",
            BOARD,
        ),
        (
            "eeprom set 0xfe 00000000",
            0,
            bad_code,
            "onie: refused: bad code\n",
            BOARD,
        ),
        (
            "eeprom set 0x2A 256",
            1,
            Status::EepromFault,
            "onie: eeprom fault\n",
            BOARD,
        ),
        (
            "eeprom set 0x2A 256",
            2,
            Status::EepromFault,
            "onie: eeprom fault\n",
            BOARD,
        ),
    ] {
        let mut eeprom = MemEeprom::new(rt.alloc(), BOARD, &[failing])?;
        let (answer, console) = run_on(rt.alloc(), line, &mut eeprom, NO_FAILS)?;
        assert_eq!(rt; answer, status, "{line}");
        assert_eq!(rt; console.as_slice(), text.as_bytes());
        let mut out = [0; 2048];
        let length = match eeprom.load(&mut out) {
            Ok(length) => length,
            Err(_) => eeprom.load(&mut out)?,
        };
        assert_eq!(rt; &out[..length], bytes);
    }
    Ok(())
}

/// A text of each kind of value that is set, and the line that is then printed last.
#[test]
fn what_is_set_is_printed(rt: HostRuntime) -> Result<(), Fail> {
    for (code, text, line) in [
        ("0x21", "Switch 48x10G", "0x21 Switch 48x10G\n"),
        ("0x24", "00:1B:2C:3D:4E:FF", "0x24 00:1B:2C:3D:4E:FF\n"),
        ("0x25", "02/29/2024 23:59:58", "0x25 02/29/2024 23:59:58\n"),
        ("0x26", "255", "0x26 255\n"),
        ("0x2A", "65535", "0x2A 65535\n"),
        ("0x2C", "DE", "0x2C DE\n"),
        ("0xFD", "00a1ff7e", "0xFD 00a1ff7e\n"),
        ("0xAB", "", "0xAB \n"),
    ] {
        let mut eeprom = MemEeprom::new(rt.alloc(), BOARD, &[])?;
        let (status, _) = call(
            rt.alloc(),
            &["eeprom", "set", code, text],
            &mut eeprom,
            NO_FAILS,
        )?;
        assert_eq!(rt; status, Status::Done(Outcome::Stored), "{code}");
        let (status, console) = call(rt.alloc(), &["eeprom"], &mut eeprom, NO_FAILS)?;
        assert_eq!(rt; status, Status::Done(Outcome::Printed));
        assert!(rt; console.as_slice().ends_with(line.as_bytes()), "{code}");
    }
    Ok(())
}

/// Sets a vendor extension of these bytes, in hexadecimal digits.
fn extend(alloc: Global, eeprom: &mut MemEeprom, digits: &str) -> Result<Status, Fail> {
    let line = ["eeprom", "set", "0xFD", digits];
    let (status, _) = call(alloc, &line, eeprom, NO_FAILS)?;
    Ok(status)
}

/// Seven extensions of 255 bytes each leave room for one of 200.
#[test]
fn a_full_eeprom_takes_no_more(rt: HostRuntime) -> Result<(), Fail> {
    let zeros = String::from_utf8(Vec::from_slice(rt.alloc(), &[b'0'; 510])?)?;
    let most = zeros.as_str();
    let (Some(too_many), Some(just)) = (most.get(..402), most.get(..400)) else {
        return Err(Fail::new("no digits"));
    };
    let mut eeprom = MemEeprom::new(rt.alloc(), BOARD, &[])?;
    let stored = Status::Done(Outcome::Stored);
    for _ in 0..7 {
        assert_eq!(rt; extend(rt.alloc(), &mut eeprom, most)?, stored);
    }
    let too_long = Status::Refused(RefusedKind::TooLong);
    assert_eq!(rt; extend(rt.alloc(), &mut eeprom, too_many)?, too_long);
    assert_eq!(rt; extend(rt.alloc(), &mut eeprom, just)?, stored);
    let mut out = [0; 2048];
    assert_eq!(rt; eeprom.load(&mut out)?, 2048);
    let (status, console) = run_on(rt.alloc(), "eeprom set 0x21 X", &mut eeprom, NO_FAILS)?;
    assert_eq!(rt; status, too_long);
    assert_eq!(rt; console.as_slice(), b"onie: refused: too long\n".as_slice());
    let mut after = [0; 2048];
    assert_eq!(rt; eeprom.load(&mut after)?, 2048);
    assert_eq!(rt; after, out);
    Ok(())
}

/// The number of each status.
#[test]
fn numbers_of_the_statuses(rt: HostRuntime) {
    for (status, number) in [
        (Status::Done(Outcome::Printed), 0),
        (Status::Done(Outcome::Stored), 0),
        (Status::Usage, 2),
        (Status::NotSound(SoundKind::NoVars), 3),
        (Status::BadEeprom(EepromKind::Tlv(TlvKind::NoCrc)), 4),
        (
            Status::BadScript {
                line: 7,
                kind: ScriptKind::Hex,
            },
            5,
        ),
        (Status::PlantFault, 6),
        (Status::EepromFault, 7),
        (Status::MediaFault, 8),
        (Status::SourceFault, 9),
        (Status::SinkFault, 10),
        (Status::Refused(RefusedKind::BadCode), 12),
        (Status::Memory, 13),
    ] {
        assert_eq!(rt; status.number(), number);
    }
}
