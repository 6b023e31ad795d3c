use super::*;
use bd_dev::{Arrival, Bytes, Net, Next};
use flow::{Flow, FlowFault, Sends, Sent, run};
use list_net::{ListNet, ListRow};
use std::alloc::Global;
use std::test::Fail;

fn row(alloc: Global, label: &[u8], at: u64, arrival: Arrival) -> Result<ListRow, Fail> {
    Ok(ListRow {
        round: 1,
        label: Bytes::from_slice(alloc, label)?,
        at,
        arrival,
    })
}

/// Rows of stream bytes; without bytes the stream ends.
fn rows(alloc: Global, table: &[(&[u8], u64, &[u8])]) -> Result<Vec<ListRow>, Fail> {
    let mut rows = Vec::new(alloc);
    for (label, at, bytes) in table {
        let arrival = if bytes.is_empty() {
            Arrival::End
        } else {
            Arrival::Stream(Bytes::from_slice(alloc, bytes)?)
        };
        rows.push(row(alloc, label, *at, arrival)?)?;
    }
    Ok(rows)
}

fn probes(alloc: Global, labels: &[&[u8]]) -> Result<Vec<Flow<Probe>>, Fail> {
    let mut flows = Vec::new(alloc);
    for label in labels {
        flows.push(Flow {
            label: Bytes::from_slice(alloc, label)?,
            core: Probe::new(),
        })?;
    }
    Ok(flows)
}

fn is_sent(sent: &Sent, at: u64, flow: u32, label: &[u8], bytes: &[u8]) -> bool {
    let port = if bytes == b"ask".as_slice() { 7 } else { 0 };
    (sent.at, sent.round, sent.flow, sent.port) == (at, 1, flow, port)
        && sent.label.as_slice() == label
        && sent.bytes.as_slice() == bytes
}

#[test]
fn a_silent_network_is_asked_three_times(rt: HostRuntime) -> Result<(), Fail> {
    let mut net = ListNet::new(rt.alloc(), Vec::new(rt.alloc()), false, &[])?;
    let mut flows = probes(rt.alloc(), &[b"a"])?;
    assert!(rt; flows.len() == 1);
    let mut sends = Sends::new(rt.alloc());
    assert_eq!(rt;
        run(rt.alloc(), &mut net, 1, &mut flows, &mut sends),
        Ok(())
    );
    assert_eq!(rt; sends.as_slice().len(), 3);
    for (i, at) in [0, 2000, 4000].into_iter().enumerate() {
        assert!(rt; i < sends.as_slice().len());
        assert!(rt; is_sent(&sends.as_slice()[i], at, 0, b"a", b"ask"));
    }
    assert_eq!(rt; net.now(), 6000);
    Ok(())
}

#[test]
fn ties_change_neither_sends_nor_ends(rt: HostRuntime) -> Result<(), Fail> {
    let table: [(&[u8], u64, &[u8]); 4] = [
        (b"a", 2000, b"x"),
        (b"b", 2000, b"y"),
        (b"a", 3000, b""),
        (b"b", 2500, b""),
    ];
    let wants: [(u64, u32, &[u8], &[u8]); 6] = [
        (6000, 1, b"a", b"ask"),
        (6000, 2, b"b", b"ask"),
        (8000, 1, b"a", b"ask"),
        (8000, 1, b"a", b"x"),
        (8000, 2, b"b", b"ask"),
        (8000, 2, b"b", b"y"),
    ];
    for late in [false, true] {
        let list = rows(rt.alloc(), &table)?;
        let mut net = ListNet::new(rt.alloc(), list, late, &[])?;
        let mut silent = probes(rt.alloc(), &[b"c"])?;
        assert!(rt; silent.len() == 1);
        let mut sends = Sends::new(rt.alloc());
        assert_eq!(rt;
            run(rt.alloc(), &mut net, 1, &mut silent, &mut sends),
            Ok(())
        );
        let mut flows = probes(rt.alloc(), &[b"a", b"b"])?;
        assert!(rt; flows.len() == 2);
        assert!(rt; net.now() == 6000);
        assert_eq!(rt;
            run(rt.alloc(), &mut net, 1, &mut flows, &mut sends),
            Ok(())
        );
        assert_eq!(rt; net.now(), 9000);
        assert!(rt; sends.as_slice().len() == 9);
        for (i, (at, flow, label, bytes)) in wants.into_iter().enumerate() {
            assert!(rt; i < 6);
            assert!(rt; is_sent(&sends.as_slice()[3 + i], at, flow, label, bytes));
        }
        let sent = net.sent();
        assert!(rt; sent.len() == 9);
        let last: &[u8] = if late { b"x" } else { b"y" };
        assert_eq!(rt; sent[8].bytes.as_slice(), last);
    }
    Ok(())
}

#[test]
fn a_failed_call_ends_the_run(rt: HostRuntime) -> Result<(), Fail> {
    for failing in 1..9 {
        let list = rows(rt.alloc(), &[(b"a", 50000, b"x")])?;
        let mut net = ListNet::new(rt.alloc(), list, false, &[failing])?;
        let mut flows = probes(rt.alloc(), &[b"a"])?;
        assert!(rt; flows.len() == 1);
        let mut sends = Sends::new(rt.alloc());
        let answer = run(rt.alloc(), &mut net, 1, &mut flows, &mut sends);
        let failed = failing <= 7;
        assert_eq!(rt; answer == Err(FlowFault::Net), failed);
        assert_eq!(rt; sends.as_slice().len(), if failed { 0 } else { 3 });
        assert!(rt; net.now() <= 100000);
        if failed {
            assert!(rt; matches!(net.next(100000)?, Next::Quiet));
        }
    }
    Ok(())
}

#[test]
fn a_flood_ends_a_core(rt: HostRuntime) -> Result<(), Fail> {
    for (count, end) in [(131071, 6000), (131072, 1)] {
        let mut list = Vec::new(rt.alloc());
        for _ in 0..count {
            let arrival = Arrival::Datagram {
                port: 9,
                bytes: Bytes::from_slice(rt.alloc(), b"")?,
            };
            list.push(row(rt.alloc(), b"a", 1, arrival)?)?;
        }
        let mut net = ListNet::new(rt.alloc(), list, false, &[])?;
        let mut flows = probes(rt.alloc(), &[b"a"])?;
        assert!(rt; flows.len() == 1);
        let mut sends = Sends::new(rt.alloc());
        assert_eq!(rt;
            run(rt.alloc(), &mut net, 1, &mut flows, &mut sends),
            Ok(())
        );
        assert_eq!(rt; net.now(), end);
    }
    Ok(())
}
