//! Against RFC 2131 and the times that the client has: worked exchanges, and two with real servers.

ghost use Rattle.std.specs.Prelude.{IfOk};
ghost use Rattle.waits.specs.Laws.{IsNewWaiter};
ghost use Rattle.dhcp_client.specs.Leasing.{dhcp};

use super::*;
use bd_dev::{Arrival, Bytes, Net};
use bd_text::Mac;
use flow::{Core, Flow, Sends, run};
use flow_labels::dhcp_label;
use list_net::{ListNet, ListRow};
use std::alloc::Global;
use std::process::Abort;
use std::test::Fail;

/// The last bytes of the first interface's number and Ethernet address.
const OWN_LAST: [u8; 2] = [0x54, 0x55];

/// The end of a message: the vendor class of a board, what is asked for, and the end.
const OWN: &[u8] = b"\x3c\x20onie_vendor:x86_64-kvm_x86_64-r0\x37\x09\x01\x03\x06BCHr}\x96\xff";

/// A packet: `op`, the client's number and Ethernet address, `yiaddr` and `siaddr`, and the options.
fn wire(
    alloc: Global,
    op: u8,
    number: [u8; 4],
    station: [u8; 6],
    addresses: [[u8; 4]; 2],
    options: &[u8],
) -> Result<Bytes, Fail> {
    let [yiaddr, siaddr] = addresses;
    let mut bytes = Bytes::from_slice(alloc, &[op, 1, 6, 0])?;
    bytes.push_slice(&number)?;
    bytes.push_slice(&[0, 0, 0x80, 0, 0, 0, 0, 0])?;
    bytes.push_slice(&yiaddr)?;
    bytes.push_slice(&siaddr)?;
    bytes.push_slice(&[0; 4])?;
    bytes.push_slice(&station)?;
    bytes.push_slice(&[0; 202])?;
    bytes.push_slice(b"\x63\x82Sc")?;
    bytes.push_slice(options)?;
    Ok(bytes)
}

/// A packet: `op`, the last bytes of the client's number and Ethernet address, `yiaddr` and the options.
fn packet(
    alloc: Global,
    op: u8,
    last: [u8; 2],
    yiaddr: [u8; 4],
    options: &[u8],
) -> Result<Bytes, Fail> {
    let [number, station] = last;
    wire(
        alloc,
        op,
        [0x22, 0x33, 0x44, number],
        [0x00, 0x11, 0x22, 0x33, 0x44, station],
        [yiaddr, [0, 0, 0, 0]],
        options,
    )
}

/// A message of this type of the server 10.0.0.`server`, which gives 10.0.1.`server`.
fn reply(alloc: Global, last: u8, kind: u8, server: u8) -> Result<Bytes, Fail> {
    let options = [0x35, 1, kind, 0x36, 4, 10, 0, 0, server, 0xff];
    packet(alloc, 2, [last ^ 1, last], [10, 0, 1, server], &options)
}

/// The DISCOVER, or for a server the REQUEST for what it offers.
fn asked(alloc: Global, last: u8, server: u8) -> Result<Bytes, Fail> {
    let mut options = Bytes::from_slice(alloc, b"")?;
    if server == 0 {
        options.push_slice(b"\x35\x01\x01")?;
    } else {
        options.push_slice(b"\x35\x01\x03\x32\x04")?;
        options.push_slice(&[10, 0, 1, server])?;
        options.push_slice(b"\x36\x04")?;
        options.push_slice(&[10, 0, 0, server])?;
    }
    options.push_slice(OWN)?;
    packet(alloc, 1, [last ^ 1, last], [0; 4], options.as_slice())
}

/// An arrival at the flow of this interface.
fn row(alloc: Global, name: &[u8], at: u64, arrival: Arrival) -> Result<ListRow, Fail> {
    Ok(ListRow {
        round: 1,
        label: dhcp_label(alloc, name)?,
        at,
        arrival,
    })
}

/// A datagram for the flow of this interface.
fn datagram(alloc: Global, name: &[u8], at: u64, bytes: Bytes) -> Result<ListRow, Fail> {
    row(alloc, name, at, Arrival::Datagram { port: 67, bytes })
}

/// The flow of an interface, by the last byte of its Ethernet address.
fn flow(alloc: Global, name: &[u8], last: u8) -> Result<Flow<DhcpCore>, Fail>
    ensures { IfOk result (λ f. IsNewWaiter dhcp f.core) }
{
    let mac = Mac {
        bytes: [0x00, 0x11, 0x22, 0x33, 0x44, last],
    };
    Ok(Flow {
        label: dhcp_label(alloc, name)?,
        core: DhcpCore::new(alloc, mac, b"x86_64-kvm_x86_64-r0", 1)?,
    })
}

/// How an exchange ended: what was sent, the last byte of the leased address, 0 for none, and the time.
#[derive(Drop)]
struct Outcome {
    sends: Sends,
    leased: u8,
    end: u64,
}

/// The last byte of the address that the last flow's client got, or 0. Takes that flow out.
fn leased_last(rt: &impl Abort, flows: &mut Vec<Flow<DhcpCore>>) -> u8 {
    let last = flows.pop();
    assert!(rt; last.is_some());
    let Some(flow) = last else {
        return 0;
    };
    assert!(rt; flow.core.deadline().is_none());
    match flow.core.result() {
        Some(lease) => {
            let [_, _, _, last] = lease.address.bytes;
            last
        }
        None => 0,
    }
}

/// Runs one exchange over these rows.
fn exchange(rt: &(impl Abort + AllocGlobal), rows: Vec<ListRow>) -> Result<Outcome, Fail> {
    let mut net = ListNet::new(rt.alloc(), rows, false, &[])?;
    let mut flows = Vec::new(rt.alloc());
    flows.push(flow(rt.alloc(), b"eth0", 0x55)?)?;
    let mut sends = Sends::new(rt.alloc());
    let answer = run(rt.alloc(), &mut net, 1, &mut flows, &mut sends);
    assert!(rt; answer == Ok(()));
    Ok(Outcome {
        sends,
        leased: leased_last(rt, &mut flows),
        end: net.now(),
    })
}

/// Whether this was sent: for each packet the time, the last byte of the client's Ethernet address, and the server that is
/// asked, 0 for all.
fn are_sent(alloc: Global, sends: &Sends, wants: &[(u64, u8, u8)]) -> Result<bool, Fail> {
    if sends.as_slice().len() != wants.len() {
        return Ok(false);
    }
    for (i, (at, last, server)) in wants.iter().enumerate() {
        let sent = &sends.as_slice()[i];
        let want = asked(alloc, *last, *server)?;
        if (sent.at, sent.port) != (*at, 67) || sent.bytes.as_slice() != want.as_slice() {
            return Ok(false);
        }
    }
    Ok(true)
}

/// Of each arrival the time, the type and the server; of each send the time and the server, 0 for a DISCOVER; the server
/// that leases, 0 for none; and the end.
#[test]
fn the_first_offer_and_its_servers_answer_decide(rt: HostRuntime) -> Result<(), Fail> {
    for (arrivals, sends, leased, end, name) in [
        (
            [].as_slice(),
            [(0, 0), (4000, 0), (12000, 0), (28000, 0)].as_slice(),
            0,
            60000,
            "nothing comes",
        ),
        (
            &[(50, 2, 1), (100, 5, 1)],
            &[(0, 0), (50, 1)],
            1,
            100,
            "a lease",
        ),
        (
            &[(50, 2, 1), (100, 6, 1), (110, 5, 1)],
            &[(0, 0), (50, 1)],
            0,
            100,
            "a NAK",
        ),
        (
            &[(50, 2, 1), (60, 2, 2), (100, 5, 1)],
            &[(0, 0), (50, 1)],
            1,
            100,
            "two servers",
        ),
        (
            &[(50, 2, 1), (60, 6, 2), (70, 5, 2), (100, 5, 1)],
            &[(0, 0), (50, 1)],
            1,
            100,
            "a NAK and an ACK of another server",
        ),
        (
            &[(50, 2, 1), (60, 5, 2)],
            &[(0, 0), (50, 1), (4050, 1), (12050, 1), (28050, 1)],
            0,
            60050,
            "an ACK of another server alone",
        ),
        (
            &[(10, 5, 1), (20, 6, 1), (30, 1, 1), (40, 3, 1)],
            &[(0, 0), (4000, 0), (12000, 0), (28000, 0)],
            0,
            60000,
            "no OFFER",
        ),
        (
            &[(4000, 2, 1), (8000, 5, 1)],
            &[(0, 0), (4000, 0), (4000, 1), (8000, 1)],
            1,
            8000,
            "an OFFER and an ACK at the moments of repetitions",
        ),
        (
            &[(60000, 2, 1)],
            &[(0, 0), (4000, 0), (12000, 0), (28000, 0)],
            0,
            60000,
            "an OFFER at the end of its wait",
        ),
        (
            &[(59999, 2, 1), (119998, 5, 1)],
            &[
                (0, 0),
                (4000, 0),
                (12000, 0),
                (28000, 0),
                (59999, 1),
                (63999, 1),
                (71999, 1),
                (87999, 1),
            ],
            1,
            119998,
            "both a moment before the end",
        ),
        (
            &[(50, 2, 1), (60050, 5, 1)],
            &[(0, 0), (50, 1), (4050, 1), (12050, 1), (28050, 1)],
            0,
            60050,
            "an ACK at the end of its wait",
        ),
    ] {
        let mut rows = Vec::new(rt.alloc());
        for (at, kind, server) in arrivals {
            let bytes = reply(rt.alloc(), 0x55, *kind, *server)?;
            rows.push(datagram(rt.alloc(), b"eth0", *at, bytes)?)?;
        }
        let mut wants = Vec::new(rt.alloc());
        for (at, server) in sends {
            wants.push((*at, 0x55, *server))?;
        }
        let outcome = exchange(&rt, rows)?;
        assert!(rt; are_sent(rt.alloc(), &outcome.sends, &wants)?, "{name}");
        assert_eq!(rt; outcome.leased, leased, "{name}");
        assert_eq!(rt; outcome.end, end, "{name}");
    }
    Ok(())
}

/// An OFFER that is one but for one thing: its `op`, the last bytes of number and Ethernet address, `yiaddr`, and the
/// options.
#[test]
fn only_what_fits_is_an_offer(rt: HostRuntime) -> Result<(), Fail> {
    let none = [0, 0, 0, 0];
    let some = [10, 0, 1, 1];
    let whole = b"\x35\x01\x02\x36\x04\x0a\0\0\x01\xff".as_slice();
    for (op, last, yiaddr, options, fits, name) in [
        (2, OWN_LAST, some, whole, true, "it fits"),
        (2, OWN_LAST, some, &whole[..9], true, "no end option"),
        (1, OWN_LAST, some, whole, false, "a request"),
        (2, [0x54, 0x56], some, whole, false, "for another client"),
        (2, [0x55, 0x55], some, whole, false, "with another number"),
        (2, OWN_LAST, none, whole, false, "no address"),
        (2, OWN_LAST, some, &whole[3..], false, "no type"),
        (2, OWN_LAST, some, &whole[..3], false, "no server"),
        (
            2,
            OWN_LAST,
            some,
            b"\x35\x02\x02\x02\x36\x04\x0a\0\0\x01\xff",
            false,
            "a type of two bytes",
        ),
        (
            2,
            OWN_LAST,
            some,
            b"\x35\x01\x02\x36\x03\x0a\0\0\xff",
            false,
            "a server of three bytes",
        ),
        (
            2,
            OWN_LAST,
            some,
            b"\x35\x01\x02\x36\x04\x0a\0\0\x01\x06\x04\x0a",
            false,
            "an option that is cut",
        ),
        (
            2,
            OWN_LAST,
            some,
            b"\x35\x01\x02\x36\x04\x0a\0\0\x01\x34\x01\x04\xff",
            false,
            "a wrong overload",
        ),
    ] {
        let mut rows = Vec::new(rt.alloc());
        let bytes = packet(rt.alloc(), op, last, yiaddr, options)?;
        rows.push(datagram(rt.alloc(), b"eth0", 50, bytes)?)?;
        let outcome = exchange(&rt, rows)?;
        let wants = if fits {
            [
                (0, 0x55, 0),
                (50, 0x55, 1),
                (4050, 0x55, 1),
                (12050, 0x55, 1),
                (28050, 0x55, 1),
            ]
            .as_slice()
        } else {
            [
                (0, 0x55, 0),
                (4000, 0x55, 0),
                (12000, 0x55, 0),
                (28000, 0x55, 0),
            ]
            .as_slice()
        };
        assert!(rt; are_sent(rt.alloc(), &outcome.sends, wants)?, "{name}");
        assert_eq!(rt; outcome.leased, 0, "{name}");
    }
    Ok(())
}

/// Only a datagram is a reply, from any port.
#[test]
fn a_reply_is_a_datagram(rt: HostRuntime) -> Result<(), Fail> {
    let mut rows = Vec::new(rt.alloc());
    let offer = reply(rt.alloc(), 0x55, 2, 1)?;
    rows.push(row(rt.alloc(), b"eth0", 20, Arrival::Stream(offer))?)?;
    let bytes = reply(rt.alloc(), 0x55, 2, 1)?;
    let echo = Arrival::Echo {
        from: [0; 16],
        bytes,
    };
    rows.push(row(rt.alloc(), b"eth0", 30, echo)?)?;
    rows.push(row(rt.alloc(), b"eth0", 40, Arrival::End)?)?;
    let bytes = reply(rt.alloc(), 0x55, 2, 1)?;
    let elsewhere = Arrival::Datagram { port: 4011, bytes };
    rows.push(row(rt.alloc(), b"eth0", 50, elsewhere)?)?;
    let ack = reply(rt.alloc(), 0x55, 5, 1)?;
    rows.push(datagram(rt.alloc(), b"eth0", 60, ack)?)?;
    let outcome = exchange(&rt, rows)?;
    let wants = [(0, 0x55, 0), (50, 0x55, 1)];
    assert!(rt; are_sent(rt.alloc(), &outcome.sends, &wants)?);
    assert_eq!(rt; outcome.leased, 1);
    assert_eq!(rt; outcome.end, 60);
    Ok(())
}

/// How many bytes were sent as this packet, counted from 0.
fn size_of(sends: &Sends, place: usize) -> usize {
    match sends.as_slice().get(place) {
        Some(sent) => sent.bytes.as_slice().len(),
        None => 0,
    }
}

/// The client of the recorded exchanges.
const REAL: Mac = Mac {
    bytes: [0x80, 0xa2, 0x35, 0x4f, 0x4e, 0x10],
};

/// A packet of the recorded exchanges.
fn recorded(alloc: Global, op: u8, addresses: [[u8; 4]; 2], options: &[u8]) -> Result<Bytes, Fail> {
    wire(
        alloc,
        op,
        [0x35, 0x4f, 0x4e, 0x11],
        REAL.bytes,
        addresses,
        options,
    )
}

/// The flow of the recorded exchanges.
fn real_flow(alloc: Global) -> Result<Flow<DhcpCore>, Fail>
    ensures { IfOk result (λ f. IsNewWaiter dhcp f.core) }
{
    Ok(Flow {
        label: dhcp_label(alloc, b"eth0")?,
        core: DhcpCore::new(alloc, REAL, b"x86_64-accton_as7712_32x-r0", 1)?,
    })
}

/// Whether the packet that was sent at this place is this one.
fn is_sent(sends: &Sends, place: usize, at: u64, bytes: &[u8]) -> bool {
    match sends.as_slice().get(place) {
        Some(sent) => (sent.at, sent.port) == (at, 67) && sent.bytes.as_slice() == bytes,
        None => false,
    }
}

/// Exchanges with real servers, as they were recorded: what came at which time, and what was asked for. In the first ISC's
/// dhcpd 4.4.3 offers a second after dnsmasq 2.90; in the second dnsmasq's range was changed before the REQUEST.
#[test]
fn servers_answered_so(rt: HostRuntime) -> Result<(), Fail> {
    let none = [0, 0, 0, 0];
    let next = [10, 9, 0, 1];
    for (rows, request, leased, end, name) in [
        (
            [
                (
                    18,
                    [10, 9, 0, 20],
                    next,
                    b"5\x01\x026\x04\n\t\0\x013\x04\0\0\x0e\x10:\x04\0\0\x07\x08;\x04\0\0\x0cN\x01\x04\xff\xff\xff\0\x1c\x04\n\t\0\xff\x03\x04\n\t\0\x01r\x11http://10.9.0.1/x\xff".as_slice(),
                ),
                (
                    19,
                    [10, 9, 0, 20],
                    next,
                    b"5\x01\x056\x04\n\t\0\x013\x04\0\0\x0e\x10:\x04\0\0\x07\x08;\x04\0\0\x0cN\x01\x04\xff\xff\xff\0\x1c\x04\n\t\0\xff\x03\x04\n\t\0\x01r\x11http://10.9.0.1/x\xff",
                ),
                (
                    1019,
                    [10, 9, 0, 90],
                    none,
                    b"5\x01\x026\x04\n\t\0\x023\x04\0\0\x0e\x10\x01\x04\xff\xff\xff\0\xff\0\0\0\0",
                ),
            ]
            .as_slice(),
            b"5\x01\x032\x04\n\t\0\x146\x04\n\t\0\x01<'onie_vendor:x86_64-accton_as7712_32x-r07\t\x01\x03\x06BCHr}\x96\xff".as_slice(),
            20,
            (18, 19),
            "two servers",
        ),
        (
            [
                (
                    24,
                    [10, 9, 0, 60],
                    next,
                    b"5\x01\x026\x04\n\t\0\x013\x04\0\0\x0e\x10:\x04\0\0\x07\x08;\x04\0\0\x0cN\x01\x04\xff\xff\xff\0\x1c\x04\n\t\0\xff\x03\x04\n\t\0\x01\xff\0\0".as_slice(),
                ),
                (
                    926,
                    none,
                    none,
                    b"5\x01\x066\x04\n\t\0\x018\x15address not available\xff\0\0",
                ),
            ]
            .as_slice(),
            b"5\x01\x032\x04\n\t\0<6\x04\n\t\0\x01<'onie_vendor:x86_64-accton_as7712_32x-r07\t\x01\x03\x06BCHr}\x96\xff",
            0,
            (24, 926),
            "a NAK",
        ),
    ] {
        let mut list = Vec::new(rt.alloc());
        for (at, yiaddr, siaddr, options) in rows {
            let bytes = recorded(rt.alloc(), 2, [*yiaddr, *siaddr], options)?;
            list.push(datagram(rt.alloc(), b"eth0", *at, bytes)?)?;
        }
        let mut net = ListNet::new(rt.alloc(), list, false, &[])?;
        let mut flows = Vec::new(rt.alloc());
        flows.push(real_flow(rt.alloc())?)?;
        let mut sends = Sends::new(rt.alloc());
        let answer = run(rt.alloc(), &mut net, 1, &mut flows, &mut sends);
        assert!(rt; answer == Ok(()));
        let discover =
            b"5\x01\x01<'onie_vendor:x86_64-accton_as7712_32x-r07\t\x01\x03\x06BCHr}\x96\xff";
        let first = recorded(rt.alloc(), 1, [none, none], discover)?;
        let second = recorded(rt.alloc(), 1, [none, none], request)?;
        let (asked, ended) = end;
        assert_eq!(rt; sends.as_slice().len(), 2, "{name}");
        assert!(rt; is_sent(&sends, 0, 0, first.as_slice()), "{name}");
        assert!(rt; is_sent(&sends, 1, asked, second.as_slice()), "{name}");
        assert_eq!(rt; leased_last(&rt, &mut flows), leased, "{name}");
        assert_eq!(rt; net.now(), ended, "{name}");
    }
    Ok(())
}

#[test]
fn interfaces_lease_side_by_side(rt: HostRuntime) -> Result<(), Fail> {
    for late in [false, true] {
        let mut rows = Vec::new(rt.alloc());
        for (name, last, server) in [(b"eth0", 0x55, 1), (b"eth1", 0x56, 2)] {
            let offer = reply(rt.alloc(), last, 2, server)?;
            rows.push(datagram(rt.alloc(), name, 50, offer)?)?;
            let ack = reply(rt.alloc(), last, 5, server)?;
            rows.push(datagram(rt.alloc(), name, 100, ack)?)?;
        }
        let mut net = ListNet::new(rt.alloc(), rows, late, &[])?;
        let mut flows = Vec::new(rt.alloc());
        flows.push(flow(rt.alloc(), b"eth0", 0x55)?)?;
        flows.push(flow(rt.alloc(), b"eth1", 0x56)?)?;
        let mut sends = Sends::new(rt.alloc());
        let answer = run(rt.alloc(), &mut net, 1, &mut flows, &mut sends);
        assert!(rt; answer == Ok(()));
        let wants = [(0, 0x55, 0), (0, 0x56, 0), (50, 0x55, 1), (50, 0x56, 2)];
        assert!(rt; are_sent(rt.alloc(), &sends, &wants)?);
        assert_eq!(rt; size_of(&sends, 0), 289);
        assert_eq!(rt; size_of(&sends, 2), 301);
        assert_eq!(rt; net.now(), 100);
        assert_eq!(rt; leased_last(&rt, &mut flows), 2);
        assert_eq!(rt; leased_last(&rt, &mut flows), 1);
    }
    Ok(())
}

#[test]
fn a_flood_ends_an_exchange(rt: HostRuntime) -> Result<(), Fail> {
    for (count, end) in [(131071, 60000), (131072, 1)] {
        let mut rows = Vec::new(rt.alloc());
        for _ in 0..count {
            let bytes = Bytes::from_slice(rt.alloc(), b"")?;
            rows.push(datagram(rt.alloc(), b"eth0", 1, bytes)?)?;
        }
        let outcome = exchange(&rt, rows)?;
        assert_eq!(rt; outcome.leased, 0);
        assert_eq!(rt; outcome.end, end);
    }
    Ok(())
}
