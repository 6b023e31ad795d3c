//! Networks that play scripts.

ghost use Rattle.std.specs.Prelude.{IfOk, None, ◌≡◌, ◌+◌, ◌<◌, ◌≤◌, [], length};
ghost use Rattle.waits.specs.Laws.{IsNewWaiter};
ghost use Rattle.tftp_client.specs.Transfer.{tftp};

use super::*;
use bd_dev::{Arrival, Bytes, DevFault, Failed, Media, MemMedia, Memory, Names, Net, Next};
use bd_text::Mac;
use flow::{Core, Flow, Sends, Sent, run};
use std::alloc::Global;
use std::process::Abort;
use std::test::Fail;
use tftp_client::TftpCore;

const MAC: Mac = Mac {
    bytes: [2, 0, 0, 0, 0, 1],
};

const LABEL: &[u8] = b"tftp 10.0.0.1:69 img";

const REQUEST: &[u8] = b"\0\x01img\0octet\0";

const STRANGER: &[u8] = b"\0\x05\0\x05Unknown transfer ID\0";

/// A network that plays the script over a volume `net` with the file `img`, of so many bytes.
fn net(alloc: Global, text: &[u8], size: usize) -> Result<ScriptNet, Fail>
    ensures { IfOk result (λ net. (net.time ≡ 0) × (net.flows ≡ [])) }
{
    let mut media = MemMedia::new(alloc, &[])?;
    media.add(b"other", b"img", b"not this one")?;
    media.add(
        b"net",
        b"img",
        b"x".as_slice().repeat(alloc, size)?.as_slice(),
    )?;
    let script = read_script(alloc, text)?;
    Ok(ScriptNet::new(alloc, script, MAC, &mut media)?)
}

fn is_sent(sent: &Sent, at: u64, port: u16, bytes: &[u8]) -> bool {
    (sent.at, sent.port) == (at, port) && sent.bytes.as_slice() == bytes
}

fn are_sent(sends: &Sends, wants: &[(u64, u16, &[u8])]) -> bool {
    if sends.as_slice().len() != wants.len() {
        return false;
    }
    for (i, (at, port, bytes)) in wants.iter().enumerate() {
        if !is_sent(&sends.as_slice()[i], *at, *port, bytes) {
            return false;
        }
    }
    true
}

/// The flow that fetches `img`.
fn transfer(alloc: Global) -> Result<Flow<TftpCore>, Fail>
    ensures { IfOk result (λ f. IsNewWaiter tftp f.core) }
{
    Ok(Flow {
        label: Bytes::from_slice(alloc, LABEL)?,
        core: TftpCore::new(alloc, 69, b"img")?,
    })
}

/// The size of the body that the last flow found. Takes that flow out.
fn found_last(rt: &impl Abort, flows: &mut Vec<Flow<TftpCore>>) -> Option<usize> {
    let last = flows.pop();
    assert!(rt; last.is_some());
    let Some(flow) = last else {
        return None;
    };
    assert!(rt; flow.core.deadline().is_none());
    match flow.core.result() {
        Ok(body) => Some(body.as_slice().len()),
        Err(_) => None,
    }
}

/// Whether the script makes a client of `img` send these, and find a body of 1,024 bytes.
fn fetches(
    rt: &(impl Abort + AllocGlobal),
    text: &[u8],
    wants: &[(u64, u16, &[u8])],
) -> Result<bool, Fail> {
    let mut net = net(rt.alloc(), text, 1024)?;
    let mut flows = Vec::new(rt.alloc());
    flows.push(transfer(rt.alloc())?)?;
    let mut sends = Sends::new(rt.alloc());
    let answer = run(rt.alloc(), &mut net, 1, &mut flows, &mut sends);
    assert!(rt; answer == Ok(()));
    let found = found_last(rt, &mut flows);
    Ok(found == Some(1024) && are_sent(&sends, wants))
}

#[test]
fn a_served_file_is_fetched(rt: HostRuntime) -> Result<(), Fail> {
    let wants: [(u64, u16, &[u8]); 4] = [
        (0, 69, REQUEST),
        (10, 40000, b"\0\x04\0\x01"),
        (20, 40000, b"\0\x04\0\x02"),
        (30, 40000, b"\0\x04\0\x03"),
    ];
    assert!(rt; fetches(&rt, b"tftp * 10.0.0.1:69 img img 10", &wants)?);
    Ok(())
}

/// A line for a block of 512 bytes.
fn push_block(alloc: Global, text: &mut Bytes, head: &[u8]) -> Result<(), Fail> {
    text.push_slice(head)?;
    text.push_slice(b"6c".as_slice().repeat(alloc, 512)?.as_slice())?;
    text.push_slice(b"\n")?;
    Ok(())
}

#[test]
fn written_arrivals_come(rt: HostRuntime) -> Result<(), Fail> {
    let mut text = Bytes::from_slice(rt.alloc(), b"flow * ")?;
    text.push_slice(LABEL)?;
    text.push_slice(b"\nat 40 udp 40000 00030003\n")?;
    push_block(rt.alloc(), &mut text, b"at 10 udp 40000 00030001")?;
    push_block(rt.alloc(), &mut text, b"at 20 udp 40000 00030002")?;
    push_block(rt.alloc(), &mut text, b"at 30 udp 40000 00030002")?;
    text.push_slice(b"at 35 udp 40001 00030003\n")?;
    let wants: [(u64, u16, &[u8]); 6] = [
        (0, 69, REQUEST),
        (10, 40000, b"\0\x04\0\x01"),
        (20, 40000, b"\0\x04\0\x02"),
        (30, 40000, b"\0\x04\0\x02"),
        (35, 40001, STRANGER),
        (40, 40000, b"\0\x04\0\x03"),
    ];
    assert!(rt; fetches(&rt, text.as_slice(), &wants)?);
    Ok(())
}

/// Opens a flow. This function and those below it promise nothing but that few flows are open: the many clauses of a
/// network are read in them alone.
fn open(net: &mut ScriptNet, round: u32, label: &[u8]) -> Result<u32, DevFault>
    requires few { length net.old.flows < 9 }
    ensures one_more { length net.new.flows ≤ length net.old.flows + 1 }
{
    net.open(round, label)
}

/// What comes before this time, which is not past: otherwise this fails without a call.
fn next(net: &mut ScriptNet, until: u64) -> Result<Next, DevFault>
    ensures same { length net.new.flows ≡ length net.old.flows }
{
    if until < net.now() {
        return Err(DevFault::Failed);
    }
    net.next(until)
}

/// Whether nothing comes before this time.
fn is_quiet(net: &mut ScriptNet, until: u64) -> Result<bool, Fail>
    ensures same { length net.new.flows ≡ length net.old.flows }
{
    Ok(matches!(next(net, until)?, Next::Quiet) && net.now() == until)
}

/// Whether this byte of a stream came to this flow at this time.
fn came(net: &mut ScriptNet, number: u32, time: u64, want: u8) -> Result<bool, Fail>
    ensures same { length net.new.flows ≡ length net.old.flows }
{
    match next(net, 99999)? {
        Next::Came {
            flow,
            arrival: Arrival::Stream(bytes),
        } => Ok((flow, net.now()) == (number, time) && bytes.as_slice() == [want].as_slice()),
        _ => Ok(false),
    }
}

/// Closes a flow.
fn close(net: &mut ScriptNet, number: u32)
    ensures same { length net.new.flows ≡ length net.old.flows }
{
    net.close(number);
}

#[test]
fn arrivals_come_in_order_of_time_and_of_lines(rt: HostRuntime) -> Result<(), Fail> {
    let text =
        b"flow 1 a\nat 30 tcp 01\nat 10 tcp 02\nflow 2 a\nat 5 tcp 03\nflow 1 b\nat 5 tcp 04\niface eth0\nat 40 tcp 05\nflow * a\nat 10 tcp 06\nat 0 tcp 07\nflow 1 a \nat 1 tcp 08";
    let mut net = net(rt.alloc(), text, 0)?;
    assert!(rt; is_quiet(&mut net, 7)?);
    assert_eq!(rt; open(&mut net, 1, b"a")?, 0);
    net.send(0, 69, b"nobody hears this")?;
    assert!(rt; came(&mut net, 0, 7, 7)?);
    assert!(rt; came(&mut net, 0, 17, 2)?);
    assert!(rt; came(&mut net, 0, 17, 6)?);
    assert!(rt; came(&mut net, 0, 37, 1)?);
    assert!(rt; is_quiet(&mut net, 1000)?);
    Ok(())
}

#[test]
fn each_opening_of_a_label_sees_all_of_it(rt: HostRuntime) -> Result<(), Fail> {
    let text = b"flow * a\nat 10 tcp 01\nat 30 tcp 02";
    for round in [1, 99] {
        let mut net = net(rt.alloc(), text, 0)?;
        assert_eq!(rt; open(&mut net, round, b"a")?, 0);
        assert!(rt; came(&mut net, 0, 10, 1)?);
        assert_eq!(rt; open(&mut net, round, b"a")?, 1);
        assert!(rt; came(&mut net, 1, 20, 1)?);
        assert!(rt; came(&mut net, 0, 30, 2)?);
        close(&mut net, 0);
        close(&mut net, 0);
        assert!(rt; came(&mut net, 1, 40, 2)?);
        close(&mut net, 1);
        close(&mut net, 7);
        assert_eq!(rt; open(&mut net, round, b"a")?, 2);
        assert!(rt; came(&mut net, 2, 50, 1)?);
    }
    Ok(())
}

#[test]
fn no_round_is_outside_of_1_to_99(rt: HostRuntime) -> Result<(), Fail> {
    let text = b"flow * a\nat 10 tcp 01\nflow 7 a\nat 10 tcp 02";
    let mut net = net(rt.alloc(), text, 0)?;
    assert_eq!(rt; open(&mut net, 0, b"a")?, 0);
    assert_eq!(rt; open(&mut net, 100, b"a")?, 1);
    assert!(rt; is_quiet(&mut net, 50)?);
    assert_eq!(rt; open(&mut net, 7, b"a")?, 2);
    assert!(rt; came(&mut net, 2, 60, 1)?);
    assert!(rt; came(&mut net, 2, 60, 2)?);
    Ok(())
}

#[test]
fn a_deadline_goes_before_an_arrival_of_its_time(rt: HostRuntime) -> Result<(), Fail> {
    let mut net = net(rt.alloc(), b"flow 1 a\nat 10 tcp 01", 0)?;
    assert_eq!(rt; open(&mut net, 1, b"a")?, 0);
    assert!(rt; is_quiet(&mut net, 10)?);
    assert!(rt; came(&mut net, 0, 10, 1)?);
    Ok(())
}

/// Why there is no network for the script, over a volume `net` with the file `img`.
fn fault_of(alloc: Global, text: &[u8], fails: &[u64]) -> Result<Option<ScriptFault>, Fail> {
    let mut media = MemMedia::new(alloc, fails)?;
    media.add(b"net", b"img", b"x")?;
    media.add(b"other", b"img2", b"x")?;
    match ScriptNet::new(alloc, read_script(alloc, text)?, MAC, &mut media) {
        Ok(_) => Ok(None),
        Err(fault) => Ok(Some(fault)),
    }
}

#[test]
fn the_first_missing_file_is_told_by_its_line(rt: HostRuntime) -> Result<(), Fail> {
    let text =
        b"# files\ntftp 1 10.0.0.1:69 a img 1\ntftp 99 10.0.0.1:69 b img2 1\ntftp 1 10.0.0.1:69 c none 1";
    let wants = [
        (
            0,
            Some(ScriptFault::Bad {
                line: 3,
                kind: ScriptKind::NoBody,
            }),
        ),
        (1, Some(ScriptFault::Media)),
        (2, Some(ScriptFault::Media)),
        (3, Some(ScriptFault::Media)),
    ];
    for (failing, want) in wants {
        assert_eq!(rt; fault_of(rt.alloc(), text, &[failing])?, want);
    }
    assert_eq!(rt;
        fault_of(rt.alloc(), b"tftp 1 10.0.0.1:69 a img 1", &[])?,
        None
    );
    Ok(())
}

#[test]
fn a_file_of_two_lines_is_looked_for_and_read_once(rt: HostRuntime) -> Result<(), Fail> {
    let text = b"tftp 1 10.0.0.1:69 a img 1\ntftp * 10.0.0.1:69 b img 2";
    for (failing, want) in [(2, Some(ScriptFault::Media)), (3, None)] {
        assert_eq!(rt; fault_of(rt.alloc(), text, &[failing])?, want);
    }
    Ok(())
}

/// Media whose one file ends sooner than its length says.
#[derive(Drop)]
struct Shrunk {
    length: u64,
}

impl Media for Shrunk {
    ghost content = { λ _. None };

    ghost faults = { λ _. 0 };

    fn volumes(&mut self, alloc: Global) -> Result<Names, DevFault> {
        Ok(Names::new(alloc))
    }

    fn find(&mut self, _volume: &[u8], _name: &[u8]) -> Result<Option<u64>, Failed> {
        Ok(Some(self.length))
    }

    fn read(
        &mut self,
        _volume: &[u8],
        _name: &[u8],
        at: u64,
        out: &mut [u8],
    ) -> Result<usize, Failed> {
        Ok(if at < 600 { out.len().min(300) } else { 0 })
    }
}

/// A network that serves a file of this length, of which the media give 600 bytes.
fn long_file(alloc: Global, length: u64) -> Result<ScriptNet, ScriptFault>
    ensures { IfOk result (λ net. net.flows ≡ []) }
{
    let script = read_script(alloc, b"tftp 1 10.0.0.1:69 img img 5")?;
    ScriptNet::new(alloc, script, MAC, &mut Shrunk { length })
}

/// When a datagram comes, which is before this time, and its length.
fn datagram(net: &mut ScriptNet, until: u64) -> Result<Option<(u64, usize)>, Fail>
    ensures same { length net.new.flows ≡ length net.old.flows }
{
    match next(net, until)? {
        Next::Came {
            arrival: Arrival::Datagram { port: 40000, bytes },
            ..
        } => Ok(Some((net.now(), bytes.as_slice().len()))),
        _ => Ok(None),
    }
}

#[test]
fn a_file_of_the_limit_is_served(rt: HostRuntime) -> Result<(), Fail> {
    let mut net = long_file(rt.alloc(), 268_435_456)?;
    open(&mut net, 1, LABEL)?;
    assert_eq!(rt; datagram(&mut net, 10)?, Some((5, 516)));
    assert_eq!(rt; datagram(&mut net, 11)?, Some((10, 92)));
    assert!(rt; is_quiet(&mut net, 99)?);
    let want = ScriptFault::Bad {
        line: 1,
        kind: ScriptKind::NoBody,
    };
    assert!(rt; matches!(&long_file(rt.alloc(), 268_435_457), Err(fault) if *fault == want));
    Ok(())
}
