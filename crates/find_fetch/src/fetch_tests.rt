//! Tests of fetches over devices in memory.

ghost use Rattle.std.specs.Prelude.{◌≡◌, [], IfOk, false};
ghost use Rattle.find_fetch.specs.Fetching.{is_local};

use super::*;
use bd_dev::{Arrival, Bytes, MemMedia, MemSink, Net};
use bd_text::Mac;
use list_net::{ListNet, ListRow};
use net_script::{ScriptNet, read_script};
use std::alloc::Global;
use std::process::Abort;
use std::test::Fail;
use tftp_client::TftpMiss;
use url_waterfall::{Candidate, Place};

const TRANSFER: &[u8] =
    b"1 0 tftp 10.0.0.1:69 img -> 69 0001696d67006f6374657400\n1 10 tftp 10.0.0.1:69 img -> 40000 00040001\n1 20 tftp 10.0.0.1:69 img -> 40000 00040002\n1 30 tftp 10.0.0.1:69 img -> 40000 00040003\n";

const AGAIN: &[u8] =
    b"1 30 tftp 10.0.0.1:69 img -> 69 0001696d67006f6374657400\n1 40 tftp 10.0.0.1:69 img -> 40000 00040001\n1 50 tftp 10.0.0.1:69 img -> 40000 00040002\n1 60 tftp 10.0.0.1:69 img -> 40000 00040003\n";

const ASKED: &[u8] = b"1 0 tftp 10.0.0.1:69 img -> 69 0001696d67006f6374657400\n";

const ASKED_THRICE: &[u8] =
    b"1 0 tftp 10.0.0.1:69 img -> 69 0001696d67006f6374657400\n1 2000 tftp 10.0.0.1:69 img -> 69 0001696d67006f6374657400\n1 4000 tftp 10.0.0.1:69 img -> 69 0001696d67006f6374657400\n";

/// A candidate that is this URL.
fn url(alloc: Global, text: &[u8]) -> Result<Candidate, Fail>
    ensures { IfOk result (λ candidate. is_local candidate ≡ false) }
{
    Ok(Candidate {
        place: Place::Url,
        shown: Bytes::from_slice(alloc, text)?,
    })
}

/// The file of this name in the volume `usb`.
fn local(alloc: Global, name: &[u8]) -> Result<Candidate, Fail> {
    let mut shown = Bytes::from_slice(alloc, b"file://usb/")?;
    shown.push_slice(name)?;
    Ok(Candidate {
        place: Place::Local {
            volume: Bytes::from_slice(alloc, b"usb")?,
            name: Bytes::from_slice(alloc, name)?,
        },
        shown,
    })
}

/// A packet that comes from port 40000 to the flow that asks for `img` in round 1.
fn row(alloc: Global, at: u64, head: &[u8], size: usize) -> Result<ListRow, Fail> {
    let mut bytes = Bytes::from_slice(alloc, head)?;
    bytes.push_slice(b"x".as_slice().repeat(alloc, size)?.as_slice())?;
    Ok(ListRow {
        round: 1,
        label: Bytes::from_slice(alloc, b"tftp 10.0.0.1:69 img")?,
        at,
        arrival: Arrival::Datagram { port: 40000, bytes },
    })
}

/// The blocks of a file of 1,024 bytes.
fn blocks(alloc: Global) -> Result<Vec<ListRow>, Fail> {
    let mut rows = Vec::new(alloc);
    rows.push(row(alloc, 10, b"\0\x03\0\x01", 512)?)?;
    rows.push(row(alloc, 20, b"\0\x03\0\x02", 512)?)?;
    rows.push(row(alloc, 30, b"\0\x03\0\x03", 0)?)?;
    Ok(rows)
}

/// Whether this many bytes `x` were found.
fn is_body(found: &Result<Fetched, FetchFault>, size: usize) -> bool {
    match found {
        Ok(Fetched::Body(body)) => {
            body.as_slice().len() == size && body.as_slice().iter().all(|byte| *byte == b'x')
        }
        _ => false,
    }
}

/// Why nothing was found.
fn miss_of(found: &Result<Fetched, FetchFault>) -> Option<Miss> {
    match found {
        Ok(Fetched::Miss(miss)) => Some(*miss),
        _ => None,
    }
}

/// How a fetch failed.
fn fault_of(found: &Result<Fetched, FetchFault>) -> Option<FetchFault> {
    match found {
        Err(fault) => Some(*fault),
        Ok(_) => None,
    }
}

/// What one fetch came to.
#[derive(Drop)]
struct Outcome {
    found: Result<Fetched, FetchFault>,
    trace: MemSink,
    time: u64,
}

/// Fetches the candidate once over these rows, with this file `img` in the volume `usb`. Where the calls of these numbers
/// fail: of the network, of the media and of the trace.
fn fetch_once(
    alloc: Global,
    rows: Vec<ListRow>,
    candidate: &Candidate,
    fails: (&[u64], &[u64], &[u64]),
) -> Result<Outcome, Fail> {
    let (net_fails, media_fails, trace_fails) = fails;
    let mut net = ListNet::new(alloc, rows, false, net_fails)?;
    let mut media = MemMedia::new(alloc, media_fails)?;
    media.add(b"usb", b"img", b"xxxxx")?;
    let mut trace = MemSink::new(alloc, trace_fails)?;
    let mut plain = Plain {
        net: &mut net,
        media: &mut media,
        trace: &mut trace,
    };
    let found = plain.fetch(alloc, 1, candidate);
    let time = net.now();
    Ok(Outcome { found, trace, time })
}

#[test]
fn a_local_file_is_found(rt: HostRuntime) -> Result<(), Fail> {
    let candidate = local(rt.alloc(), b"img")?;
    let outcome = fetch_once(
        rt.alloc(),
        Vec::new(rt.alloc()),
        &candidate,
        (&[], &[], &[]),
    )?;
    assert!(rt; is_body(&outcome.found, 5));
    assert!(rt; outcome.trace.as_slice().is_empty());
    let absent = local(rt.alloc(), b"image")?;
    let outcome = fetch_once(rt.alloc(), Vec::new(rt.alloc()), &absent, (&[], &[], &[]))?;
    assert_eq!(rt; miss_of(&outcome.found), Some(Miss::NoFile));
    assert!(rt; outcome.trace.as_slice().is_empty());
    Ok(())
}

#[test]
fn failing_media_break_a_fetch_off(rt: HostRuntime) -> Result<(), Fail> {
    let candidate = local(rt.alloc(), b"img")?;
    for fails in [[1u64].as_slice(), [2u64].as_slice()] {
        let outcome = fetch_once(
            rt.alloc(),
            Vec::new(rt.alloc()),
            &candidate,
            (&[], fails, &[]),
        )?;
        assert_eq!(rt; fault_of(&outcome.found), Some(FetchFault::Media));
        assert!(rt; outcome.trace.as_slice().is_empty());
    }
    Ok(())
}

#[test]
fn a_file_comes_over_tftp(rt: HostRuntime) -> Result<(), Fail> {
    let candidate = url(rt.alloc(), b"tftp://10.0.0.1/img")?;
    let outcome = fetch_once(rt.alloc(), blocks(rt.alloc())?, &candidate, (&[], &[], &[]))?;
    assert!(rt; is_body(&outcome.found, 1024));
    assert!(rt; outcome.trace.as_slice() == TRANSFER);
    assert_eq!(rt; outcome.time, 30);
    Ok(())
}

/// What two fetches of one candidate came to.
#[derive(Drop)]
struct Twice {
    first: Result<Fetched, FetchFault>,
    second: Result<Fetched, FetchFault>,
    trace: MemSink,
    net: ListNet,
}

/// Fetches the candidate twice in one round over the blocks of a file, where the calls of the network of these numbers
/// fail.
fn fetch_twice(alloc: Global, candidate: &Candidate, fails: &[u64]) -> Result<Twice, Fail> {
    let mut net = ListNet::new(alloc, blocks(alloc)?, false, fails)?;
    let mut media = MemMedia::new(alloc, &[])?;
    let mut trace = MemSink::new(alloc, &[])?;
    let mut plain = Plain {
        net: &mut net,
        media: &mut media,
        trace: &mut trace,
    };
    let first = plain.fetch(alloc, 1, candidate);
    let second = plain.fetch(alloc, 1, candidate);
    Ok(Twice {
        first,
        second,
        trace,
        net,
    })
}

#[test]
fn a_second_fetch_gives_the_same(rt: HostRuntime) -> Result<(), Fail> {
    let candidate = url(rt.alloc(), b"tftp://10.0.0.1/img")?;
    let twice = fetch_twice(rt.alloc(), &candidate, &[])?;
    assert!(rt; is_body(&twice.first, 1024));
    assert!(rt; is_body(&twice.second, 1024));
    assert!(rt; twice.trace.as_slice().strip_prefix(TRANSFER) == Some(AGAIN));
    let sent = twice.net.sent();
    assert!(rt; sent.len() == 8);
    for (i, send) in sent.iter().enumerate() {
        assert_eq!(rt; send.flow, if i < 4 { 0 } else { 1 });
    }
    Ok(())
}

#[test]
fn a_silent_server_is_asked_three_times(rt: HostRuntime) -> Result<(), Fail> {
    let candidate = url(rt.alloc(), b"tftp://10.0.0.1/img")?;
    let outcome = fetch_once(
        rt.alloc(),
        Vec::new(rt.alloc()),
        &candidate,
        (&[], &[], &[]),
    )?;
    assert_eq!(rt; miss_of(&outcome.found), Some(Miss::Tftp(TftpMiss::Silent)));
    assert!(rt; outcome.trace.as_slice() == ASKED_THRICE);
    assert_eq!(rt; outcome.time, 6000);
    Ok(())
}

#[test]
fn a_server_refuses(rt: HostRuntime) -> Result<(), Fail> {
    let candidate = url(rt.alloc(), b"tftp://10.0.0.1/img")?;
    let mut rows = Vec::new(rt.alloc());
    rows.push(row(rt.alloc(), 10, b"\0\x05\0\x01\0", 0)?)?;
    let outcome = fetch_once(rt.alloc(), rows, &candidate, (&[], &[], &[]))?;
    assert_eq!(rt;
        miss_of(&outcome.found),
        Some(Miss::Tftp(TftpMiss::Refused(1)))
    );
    assert!(rt; outcome.trace.as_slice() == ASKED);
    assert_eq!(rt; outcome.time, 10);
    Ok(())
}

#[test]
fn nothing_is_sent_for_what_cannot_be_fetched(rt: HostRuntime) -> Result<(), Fail> {
    let table = [
        (b"tftp://img.example/x".as_slice(), Miss::NoServer),
        (b"http://10.0.0.5/a", Miss::Scheme),
        (b"img", Miss::BadUrl),
    ];
    for (text, miss) in &table {
        let candidate = url(rt.alloc(), text)?;
        // The first call of the network would fail.
        let outcome = fetch_once(
            rt.alloc(),
            Vec::new(rt.alloc()),
            &candidate,
            (&[1], &[], &[]),
        )?;
        assert_eq!(rt; miss_of(&outcome.found), Some(*miss));
        assert!(rt; outcome.trace.as_slice().is_empty());
        assert_eq!(rt; outcome.time, 0);
    }
    Ok(())
}

#[test]
fn after_a_failing_network_a_fetch_works(rt: HostRuntime) -> Result<(), Fail> {
    let candidate = url(rt.alloc(), b"tftp://10.0.0.1/img")?;
    // It is opened, then the request is sent, and then blocks come and are acknowledged in turn.
    for fails in 1..9u64 {
        let twice = fetch_twice(rt.alloc(), &candidate, &[fails])?;
        assert_eq!(rt; fault_of(&twice.first), Some(FetchFault::Net));
        assert!(rt; is_body(&twice.second, 1024));
    }
    Ok(())
}

#[test]
fn a_failing_trace_has_a_front(rt: HostRuntime) -> Result<(), Fail> {
    let candidate = url(rt.alloc(), b"tftp://10.0.0.1/img")?;
    let outcome = fetch_once(
        rt.alloc(),
        blocks(rt.alloc())?,
        &candidate,
        (&[], &[], &[1]),
    )?;
    assert_eq!(rt; fault_of(&outcome.found), Some(FetchFault::Sink));
    assert!(rt; TRANSFER.starts_with(outcome.trace.as_slice()));
    Ok(())
}

#[test]
fn a_scripted_server_gives_the_same(rt: HostRuntime) -> Result<(), Fail> {
    let candidate = url(rt.alloc(), b"tftp://10.0.0.1/img")?;
    let mut media = MemMedia::new(rt.alloc(), &[])?;
    media.add(
        b"net",
        b"img",
        b"x".as_slice().repeat(rt.alloc(), 1024)?.as_slice(),
    )?;
    let script = read_script(rt.alloc(), b"tftp * 10.0.0.1:69 img img 10")?;
    let mac = Mac {
        bytes: [2, 0, 0, 0, 0, 1],
    };
    let mut net = ScriptNet::new(rt.alloc(), script, mac, &mut media)?;
    let mut trace = MemSink::new(rt.alloc(), &[])?;
    let mut plain = Plain {
        net: &mut net,
        media: &mut media,
        trace: &mut trace,
    };
    let found = plain.fetch(rt.alloc(), 1, &candidate);
    assert!(rt; is_body(&found, 1024));
    assert!(rt; trace.as_slice() == TRANSFER);
    Ok(())
}
