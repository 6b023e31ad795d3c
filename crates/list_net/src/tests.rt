//! Rows that a network in memory plays. The tests call it by `open`, `next` and `send` of this file, which hand on its
//! answers and promise nothing but that few flows are open: the many clauses of a network are read here alone.

ghost use Rattle.std.specs.Prelude.{◌≡◌, ◌+◌, ◌<◌, ◌≤◌, length};

use super::*;
use bd_dev::{Arrival, Bytes, DevFault, Memory, Net, Next};
use std::alloc::Global;
use std::test::Fail;

/// Opens a flow of the label `a` in round 1.
fn open(net: &mut ListNet) -> Result<u32, DevFault>
    requires few { length net.old.flows < 9 }
    ensures one_more { length net.new.flows ≤ length net.old.flows + 1 }
{
    net.open(1, b"a")
}

/// What comes before this time. No test asks for a time that is past, for which this fails without a call.
fn next(net: &mut ListNet, until: u64) -> Result<Next, DevFault>
    ensures same { length net.new.flows ≡ length net.old.flows }
{
    if until < net.now() {
        return Err(DevFault::Failed);
    }
    net.next(until)
}

/// Sends bytes on the flow 0.
fn send(net: &mut ListNet, port: u16, bytes: &[u8]) -> Result<(), DevFault>
    ensures same { length net.new.flows ≡ length net.old.flows }
{
    net.send(0, port, bytes)
}

fn row(alloc: Global, round: u32, label: &[u8], at: u64, bytes: &[u8]) -> Result<ListRow, Memory> {
    Ok(ListRow {
        round,
        label: Bytes::from_slice(alloc, label)?,
        at,
        arrival: Arrival::Stream(Bytes::from_slice(alloc, bytes)?),
    })
}

fn rows(alloc: Global, table: &[(u32, &[u8], u64, &[u8])]) -> Result<Vec<ListRow>, Fail> {
    let mut rows = Vec::new(alloc);
    for (round, label, at, bytes) in table {
        rows.push(row(alloc, *round, label, *at, bytes)?)?;
    }
    Ok(rows)
}

/// Whether these bytes of a stream came to this flow.
fn came(next: &Next, number: u32, want: &[u8]) -> bool {
    match next {
        Next::Came {
            flow,
            arrival: Arrival::Stream(bytes),
        } => *flow == number && bytes.as_slice() == want,
        _ => false,
    }
}

#[test]
fn rows_come_in_order_of_time(rt: HostRuntime) -> Result<(), Fail> {
    let table: [(u32, &[u8], u64, &[u8]); 7] = [
        (1, b"a", 30, b"late"),
        (1, b"a", 10, b"first"),
        (2, b"a", 5, b"other round"),
        (1, b"b", 5, b"other label"),
        (1, b"a", 20, b"second"),
        (1, b"a", 10, b"behind first"),
        (1, b"a", 18446744073709551615, b"never"),
    ];
    let mut net = ListNet::new(rt.alloc(), rows(rt.alloc(), &table)?, false, &[])?;
    assert!(rt; matches!(next(&mut net, 7)?, Next::Quiet));
    assert_eq!(rt; open(&mut net)?, 0);
    let wants: [(u64, &[u8]); 4] = [
        (17, b"first"),
        (17, b"behind first"),
        (27, b"second"),
        (37, b"late"),
    ];
    for (time, want) in wants {
        assert!(rt; came(&next(&mut net, 1000)?, 0, want));
        assert_eq!(rt; net.now(), time);
    }
    assert!(rt; matches!(next(&mut net, 18446744073709551615)?, Next::Quiet));
    assert_eq!(rt; net.now(), 18446744073709551615);
    Ok(())
}

#[test]
fn a_deadline_goes_before_an_arrival_of_its_time(rt: HostRuntime) -> Result<(), Fail> {
    let list = rows(rt.alloc(), &[(1, b"a", 10, b"x")])?;
    let mut net = ListNet::new(rt.alloc(), list, false, &[])?;
    open(&mut net)?;
    assert!(rt; matches!(next(&mut net, 10)?, Next::Quiet));
    assert_eq!(rt; net.now(), 10);
    assert!(rt; came(&next(&mut net, 11)?, 0, b"x"));
    assert_eq!(rt; net.now(), 10);
    Ok(())
}

#[test]
fn each_opening_sees_its_rows_anew(rt: HostRuntime) -> Result<(), Fail> {
    for late in [false, true] {
        let list = rows(rt.alloc(), &[(1, b"a", 10, b"x"), (1, b"a", 30, b"y")])?;
        let mut net = ListNet::new(rt.alloc(), list, late, &[])?;
        open(&mut net)?;
        assert!(rt; matches!(next(&mut net, 20)?, Next::Came { flow: 0, .. }));
        assert!(rt; matches!(next(&mut net, 20)?, Next::Quiet));
        assert_eq!(rt; open(&mut net)?, 1);
        let (first, second) = if late { (1, 0) } else { (0, 1) };
        let (early, behind): (&[u8], &[u8]) = if late { (b"x", b"y") } else { (b"y", b"x") };
        assert!(rt; came(&next(&mut net, 99)?, first, early));
        assert!(rt; came(&next(&mut net, 99)?, second, behind));
        assert_eq!(rt; net.now(), 30);
        net.close(1);
        net.close(7);
        assert!(rt; matches!(next(&mut net, 99)?, Next::Quiet));
    }
    Ok(())
}

#[test]
fn calls_fail_by_their_numbers(rt: HostRuntime) -> Result<(), Fail> {
    for failing in [1, 2, 3, 4] {
        let list = rows(rt.alloc(), &[(1, b"a", 10, b"x")])?;
        let mut net = ListNet::new(rt.alloc(), list, false, &[failing])?;
        let opened = open(&mut net);
        assert_eq!(rt; opened == Err(DevFault::Failed), failing == 1);
        assert_eq!(rt;
            send(&mut net, 69, b"hi") == Err(DevFault::Failed),
            failing == 2
        );
        assert_eq!(rt; next(&mut net, 50).is_err(), failing == 3);
        assert_eq!(rt;
            send(&mut net, 70, b"ho") == Err(DevFault::Failed),
            failing == 4
        );
        assert_eq!(rt;
            net.sent().len(),
            if failing == 2 || failing == 4 { 1 } else { 2 }
        );
    }
    Ok(())
}

#[test]
fn what_was_sent_is_kept(rt: HostRuntime) -> Result<(), Fail> {
    let mut net = ListNet::new(rt.alloc(), Vec::new(rt.alloc()), false, &[])?;
    open(&mut net)?;
    send(&mut net, 69, b"one")?;
    next(&mut net, 2000)?;
    send(&mut net, 0, b"two")?;
    let sent = net.sent();
    assert_eq!(rt; sent.len(), 2);
    assert_eq!(rt; (sent[0].at, sent[0].flow, sent[0].port), (0, 0, 69));
    assert_eq!(rt; sent[0].bytes.as_slice(), b"one".as_slice());
    assert_eq!(rt; (sent[1].at, sent[1].flow, sent[1].port), (2000, 0, 0));
    assert_eq!(rt; sent[1].bytes.as_slice(), b"two".as_slice());
    Ok(())
}
