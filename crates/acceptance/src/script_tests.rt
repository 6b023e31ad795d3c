//! `discover` over the script of a network: which scripts are played, and how others are refused.

ghost use Rattle.std.specs.Prelude.{◌≤◌, length};

use crate::calls::answer;
use bd_dev::{MemEeprom, MemMedia, MemSink, MemSource, Source};
use bd_sim::SimPlant;
use net_script::ScriptKind;
use onie_cli::{EepromKind, Outcome, Status};
use std::alloc::Global;
use std::test::Fail;
use tlvinfo::TlvKind;

const BOARD: &[u8] =
    b"TlvInfo\0\x01\0$(\x14x86_64-kvm_x86_64-r0$\x06\0\x11\"3DU\xfe\x04\x99!\xba\x7f";

/// A line behind a comment, which serves the file `img`.
const SERVES: &str = "# one\ntftp * 10.0.0.1:69 img img 10\n";

/// A script whose line 100 is wrong.
const FAR: &str = "\
\n\n\n\n\n\n\n\n\n\n\n\n\n\n\n\n\n\n\n\n\n\n\n\n\n\n\n\n\n\n\n\n\n\
\n\n\n\n\n\n\n\n\n\n\n\n\n\n\n\n\n\n\n\n\n\n\n\n\n\n\n\n\n\n\n\n\n\
\n\n\n\n\n\n\n\n\n\n\n\n\n\n\n\n\n\n\n\n\n\n\n\n\n\n\n\n\n\n\n\n\n\
flow 0 x";

/// The numbers of the calls that fail, of each device. No call has the number 0.
#[derive(Clone, Copy)]
struct Fails {
    media: u64,
    script: u64,
    console: u64,
}

const NO_FAILS: Fails = Fails {
    media: 0,
    script: 0,
    console: 0,
};

/// What a call answers, what the console took, whether the trace took nothing, and how many bytes the script's source
/// gives to a next read.
#[derive(Drop)]
struct Discovery {
    status: Status,
    console: MemSink,
    untraced: bool,
    rest: Option<usize>,
}

/// Media with the volume `usb0`, which has one installer, whose calls of these numbers fail.
fn usb0(alloc: Global, fails: &[u64]) -> Result<MemMedia, Fail> {
    let mut media = MemMedia::new(alloc, fails)?;
    media.add(b"usb0", b"onie-installer", b"12345")?;
    Ok(media)
}

/// What `discover` comes to on a board with this EEPROM, this script and these media.
fn discover(
    alloc: Global,
    eeprom: &[u8],
    script: &[u8],
    media: &mut MemMedia,
    fails: Fails,
) -> Result<Discovery, Fail>
    requires { length eeprom.now ≤ 2048 }
{
    let mut words = Vec::new(alloc);
    words.push(String::from_str(alloc, "discover")?)?;
    // The plant is not called: its first call fails.
    let mut plant = SimPlant::new(alloc, b"", b"", &[1])?;
    let mut eeprom = MemEeprom::new(alloc, eeprom, &[])?;
    let mut script = MemSource::new(alloc, script, &[fails.script])?;
    let mut console = MemSink::new(alloc, &[fails.console])?;
    let mut trace = MemSink::new(alloc, &[1])?;
    let status = answer(
        alloc,
        &words,
        &mut plant,
        &mut eeprom,
        media,
        &mut script,
        &mut console,
        &mut trace,
    );
    Ok(Discovery {
        status,
        console,
        untraced: trace.as_slice().is_empty(),
        rest: script.read(&mut [0; 8]).ok(),
    })
}

/// What `discover` prints for the board over the volume `usb0`.
const LISTED: &str = "\
miss file://usb0/onie-installer-x86_64-kvm_x86_64-r0: no file\n\
miss file://usb0/onie-installer-x86_64-kvm_x86_64-r0.bin: no file\n\
miss file://usb0/onie-installer-x86_64-kvm_x86_64: no file\n\
miss file://usb0/onie-installer-x86_64-kvm_x86_64.bin: no file\n\
miss file://usb0/onie-installer-kvm_x86_64: no file\n\
miss file://usb0/onie-installer-kvm_x86_64.bin: no file\n\
miss file://usb0/onie-installer-x86_64: no file\n\
miss file://usb0/onie-installer-x86_64.bin: no file\n\
found file://usb0/onie-installer: 5 bytes\n\
miss file://usb0/onie-installer.bin: no file\n\
";

/// Scripts that are refused: the line, what is wrong with it, and what is printed.
#[test]
fn a_wrong_script_is_refused(rt: HostRuntime) -> Result<(), Fail> {
    let rows: [(&str, u32, ScriptKind, &str); 15] = [
        (
            "hello\n",
            1,
            ScriptKind::Unknown,
            "onie: script line 1: unknown\n",
        ),
        (
            "flow *\n",
            1,
            ScriptKind::Missing,
            "onie: script line 1: missing\n",
        ),
        (
            "iface a b\n",
            1,
            ScriptKind::Extra,
            "onie: script line 1: extra\n",
        ),
        (
            "flow 0 x\n",
            1,
            ScriptKind::Number,
            "onie: script line 1: number\n",
        ),
        (
            "flow * x\nat 5 tcp 0\n",
            2,
            ScriptKind::Hex,
            "onie: script line 2: hex\n",
        ),
        (
            "tftp * 10.0.0:69 a a 10\n",
            1,
            ScriptKind::Address,
            "onie: script line 1: address\n",
        ),
        (
            "iface a:b\n",
            1,
            ScriptKind::Iface,
            "onie: script line 1: iface\n",
        ),
        (
            "at 5 end\n",
            1,
            ScriptKind::NoFlow,
            "onie: script line 1: no flow\n",
        ),
        (
            SERVES,
            2,
            ScriptKind::NoBody,
            "onie: script line 2: no body\n",
        ),
        // An empty line counts, and the last may lack its LF.
        (
            "\n\n\n\nat 5 end",
            5,
            ScriptKind::NoFlow,
            "onie: script line 5: no flow\n",
        ),
        // Numbers of one, two and three digits.
        (
            "\n\n\n\n\n\n\n\niface",
            9,
            ScriptKind::Missing,
            "onie: script line 9: missing\n",
        ),
        (
            "\n\n\n\n\n\n\n\n\niface a b",
            10,
            ScriptKind::Extra,
            "onie: script line 10: extra\n",
        ),
        (
            FAR,
            100,
            ScriptKind::Number,
            "onie: script line 100: number\n",
        ),
        // The first wrong line decides, and a wrong line comes before a file that is lacking.
        (
            "at 5 end\nhello\n",
            1,
            ScriptKind::NoFlow,
            "onie: script line 1: no flow\n",
        ),
        (
            "tftp * 10.0.0.1:69 img img 10\nhello\n",
            2,
            ScriptKind::Unknown,
            "onie: script line 2: unknown\n",
        ),
    ];
    for (script, line, kind, text) in rows {
        let mut media = usb0(rt.alloc(), &[])?;
        let discovery = discover(rt.alloc(), BOARD, script.as_bytes(), &mut media, NO_FAILS)?;
        assert_eq!(rt;
            discovery.status,
            Status::BadScript { line, kind },
            "{script}"
        );
        assert_eq!(rt; discovery.status.number(), 5);
        assert_eq!(rt; discovery.console.as_slice(), text.as_bytes());
        assert!(rt; discovery.untraced);
    }
    Ok(())
}

/// A script that serves a file of the volume `net` is played: the candidates are listed, the script is read to its end,
/// and nothing is sent.
#[test]
fn a_script_is_played(rt: HostRuntime) -> Result<(), Fail> {
    for script in ["", SERVES, "flow 1 dns\nat 5 end\n"] {
        let mut media = usb0(rt.alloc(), &[])?;
        media.add(b"net", b"img", b"x")?;
        let discovery = discover(rt.alloc(), BOARD, script.as_bytes(), &mut media, NO_FAILS)?;
        assert_eq!(rt; discovery.status, Status::Done(Outcome::Printed));
        assert_eq!(rt; discovery.console.as_slice(), LISTED.as_bytes());
        assert!(rt; discovery.untraced);
        assert_eq!(rt; discovery.rest, Some(0));
    }
    Ok(())
}

/// A script of 16,777,217 bytes, all of them LF.
#[test]
fn a_long_script_is_refused(rt: HostRuntime) -> Result<(), Fail> {
    let mut text = Vec::new(rt.alloc());
    text.resize(16_777_217, b'\n')?;
    let mut media = usb0(rt.alloc(), &[])?;
    let discovery = discover(rt.alloc(), BOARD, text.as_slice(), &mut media, NO_FAILS)?;
    let kind = ScriptKind::TooLong;
    assert_eq!(rt; discovery.status, Status::BadScript { line: 0, kind });
    assert_eq!(rt;
        discovery.console.as_slice(),
        b"onie: script line 0: too long\n".as_slice()
    );
    Ok(())
}

/// One call of a device fails, whose number among that device's calls is given, from 1.
#[test]
fn a_fault_ends_the_reading(rt: HostRuntime) -> Result<(), Fail> {
    let wrong = "at 5 end\n";
    for (script, fails, want, number, text) in [
        (
            SERVES,
            Fails {
                media: 0,
                script: 1,
                console: 0,
            },
            Status::SourceFault,
            9,
            "onie: source fault\n",
        ),
        // The end of the source is read by a call of its own.
        (
            SERVES,
            Fails {
                media: 0,
                script: 2,
                console: 0,
            },
            Status::SourceFault,
            9,
            "onie: source fault\n",
        ),
        // The served file is looked for before the volumes are listed.
        (
            SERVES,
            Fails {
                media: 1,
                script: 0,
                console: 0,
            },
            Status::MediaFault,
            8,
            "onie: media fault\n",
        ),
        (
            wrong,
            Fails {
                media: 0,
                script: 0,
                console: 1,
            },
            Status::SinkFault,
            10,
            "",
        ),
        (
            wrong,
            Fails {
                media: 0,
                script: 0,
                console: 2,
            },
            Status::SinkFault,
            10,
            "onie: script line ",
        ),
        (
            wrong,
            Fails {
                media: 0,
                script: 0,
                console: 3,
            },
            Status::SinkFault,
            10,
            "onie: script line 1",
        ),
        (
            wrong,
            Fails {
                media: 0,
                script: 1,
                console: 1,
            },
            Status::SinkFault,
            10,
            "",
        ),
    ] {
        let mut media = usb0(rt.alloc(), &[fails.media])?;
        let discovery = discover(rt.alloc(), BOARD, script.as_bytes(), &mut media, fails)?;
        assert_eq!(rt; discovery.status, want);
        assert_eq!(rt; discovery.status.number(), number);
        assert_eq!(rt; discovery.console.as_slice(), text.as_bytes());
    }
    Ok(())
}

/// An EEPROM without identity is refused before the script, which is not read: the call of the source that fails is
/// still to come.
#[test]
fn the_eeprom_comes_before_the_script(rt: HostRuntime) -> Result<(), Fail> {
    let fails = Fails {
        media: 1,
        script: 1,
        console: 0,
    };
    let mut media = usb0(rt.alloc(), &[fails.media])?;
    let discovery = discover(rt.alloc(), b"", b"at 5 end\n", &mut media, fails)?;
    let kind = EepromKind::Tlv(TlvKind::NotTlv);
    assert_eq!(rt; discovery.status, Status::BadEeprom(kind));
    assert_eq!(rt; discovery.status.number(), 4);
    assert_eq!(rt;
        discovery.console.as_slice(),
        b"onie: eeprom: not tlv\n".as_slice()
    );
    assert_eq!(rt; discovery.rest, None);
    Ok(())
}
