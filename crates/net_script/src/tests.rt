//! Scripts, and what is wrong with them.

use super::*;
use crate::line::{Line, Rounds};
use bd_dev::Arrival;
use std::process::Abort;
use std::test::Fail;

/// Where and how the first wrong line is wrong.
fn fault_of(rt: &(impl Abort + AllocGlobal), text: &[u8]) -> Option<(u32, ScriptKind)> {
    match read_script(rt.alloc(), text) {
        Err(ScriptFault::Bad { line, kind }) => Some((line, kind)),
        _ => None,
    }
}

#[test]
fn wrong_lines_are_told_by_their_numbers(rt: HostRuntime) -> Result<(), Fail> {
    let cases: [(&[u8], u32, ScriptKind); 14] = [
        (b"at 5 end", 1, ScriptKind::NoFlow),
        (b" ", 1, ScriptKind::Missing),
        (b"\n\n#\n #x", 4, ScriptKind::Unknown),
        (b"Iface eth0", 1, ScriptKind::Unknown),
        (
            b"lease * eth0 50 10.0.0.20 10.0.0.1",
            1,
            ScriptKind::Unknown,
        ),
        (b"http * 10.0.0.5:80 /a a 1", 1, ScriptKind::Unknown),
        (b"iface", 1, ScriptKind::Missing),
        (b"iface eth0 v6", 1, ScriptKind::Extra),
        (b"iface eth0\r\n", 1, ScriptKind::Iface),
        (b"iface abcdefghijklmnop", 1, ScriptKind::Iface),
        (b"iface a\niface b\n\niface a\n", 4, ScriptKind::Iface),
        (
            b"iface a\niface b\niface c\niface d\niface e\niface f\niface g\niface h\niface i",
            9,
            ScriptKind::Iface,
        ),
        (b"flow *", 1, ScriptKind::Missing),
        (b"flow * a\nat 1 end\nat 2\niface E", 3, ScriptKind::Missing),
    ];
    for (text, line, kind) in cases {
        assert!(rt; text.len() < 100);
        assert_eq!(rt; fault_of(&rt, text), Some((line, kind)), "{text:?}");
    }
    Ok(())
}

#[test]
fn the_first_test_that_fails_is_told(rt: HostRuntime) -> Result<(), Fail> {
    let cases: [(&[u8], ScriptKind); 16] = [
        (b"flow 0 a", ScriptKind::Number),
        (b"flow 100 a", ScriptKind::Number),
        (b"flow 01 a", ScriptKind::Number),
        (b"at 5 fin x", ScriptKind::Unknown),
        (b"at x end x", ScriptKind::Extra),
        (b"at x udp 0", ScriptKind::Missing),
        (b"at x udp 0 0g", ScriptKind::NoFlow),
        (b"flow * a\nat 86400001 udp 0 0g", ScriptKind::Number),
        (b"flow * a\nat 1 udp 65536 0g", ScriptKind::Number),
        (b"flow * a\nat 1 udp 65535 0", ScriptKind::Hex),
        (b"flow * a\nat 1 echo fe80::g 0", ScriptKind::Address),
        (b"tftp * 10.0.0.1 img img", ScriptKind::Missing),
        (b"tftp * 10.0.0.1 img img x", ScriptKind::Address),
        (b"tftp * 10.0.0.256:0 img img x", ScriptKind::Address),
        (b"tftp * [fe80::1%]:69 img img 1", ScriptKind::Address),
        (b"tftp * 10.0.0.1:0 img img x", ScriptKind::Number),
    ];
    for (text, kind) in cases {
        assert!(rt; text.len() < 100);
        let line = if text.starts_with(b"flow * a") { 2 } else { 1 };
        assert_eq!(rt; fault_of(&rt, text), Some((line, kind)), "{text:?}");
    }
    Ok(())
}

#[test]
fn lines_are_read(rt: HostRuntime) -> Result<(), Fail> {
    let text =
        b"iface eth0\n# x\n\n  flow  7  a  b \nat 0 udp 1 Ab0c\nat 86400000 echo ::1 -\ntftp * [FE80:0::2%eth0]:69 img nos.bin 10";
    let script = read_script(rt.alloc(), text)?;
    let ifaces = script.ifaces();
    assert_eq!(rt; ifaces.len(), 1);
    assert_eq!(rt; ifaces[0].as_slice(), b"eth0".as_slice());
    let lines = &script.lines;
    assert_eq!(rt; lines.len(), 5);
    assert_eq!(rt; lines[4].number, 7);
    assert!(rt;
        matches!(&lines[1].line, Line::Flow { rounds: Rounds::One(7), label } if label.as_slice() == b"a  b ".as_slice())
    );
    assert!(rt;
        matches!(&lines[2].line, Line::At { at: 0, arrival: Arrival::Datagram { port: 1, bytes } } if bytes.as_slice() == b"\xAB\x0C".as_slice())
    );
    assert!(rt;
        matches!(
            &lines[3].line,
            Line::At {
                at: 86400000,
                arrival: Arrival::Echo { .. }
            }
        )
    );
    assert!(rt;
        matches!(&lines[4].line, Line::Tftp { rounds: Rounds::All, label, every: 10, .. } if label.as_slice() == b"tftp [fe80::2%eth0]:69 img".as_slice())
    );
    Ok(())
}

#[test]
fn a_script_has_a_longest_length(rt: HostRuntime) -> Result<(), Fail> {
    let text = vec![in rt.alloc(); b'#'; 16777217]?;
    assert_eq!(rt; fault_of(&rt, &text), Some((0, ScriptKind::TooLong)));
    assert!(rt; read_script(rt.alloc(), &text[1..])?.ifaces().is_empty());
    Ok(())
}
