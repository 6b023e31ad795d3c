//! Worked lines.

use super::*;
use bd_dev::Bytes;
use flow::{Sends, Sent};
use std::alloc::Global;
use std::test::Fail;

fn sent(alloc: Global, at: u64, label: &[u8], port: u16, bytes: &[u8]) -> Result<Sent, Fail> {
    Ok(Sent {
        at,
        round: 1,
        flow: 0,
        label: Bytes::from_slice(alloc, label)?,
        port,
        bytes: Bytes::from_slice(alloc, bytes)?,
    })
}

#[test]
fn each_send_has_its_line(rt: HostRuntime) -> Result<(), Fail> {
    let mut sends = Sends::new(rt.alloc());
    assert_eq!(rt;
        trace_text(rt.alloc(), sends.as_slice())?.as_slice(),
        b"".as_slice()
    );
    let request = sent(
        rt.alloc(),
        0,
        b"tftp 10.0.0.1:69 img",
        69,
        b"\0\x01img\0octet\0",
    )?;
    sends.push(request)?;
    sends.push(sent(rt.alloc(), 1100, b"nbr eth0", 0, b"\x80\0\0\0ON\0\x02")?)?;
    sends.push(sent(rt.alloc(), u64::MAX, b"", u16::MAX, b"")?)?;
    let want: &[u8] = b"\
1 0 tftp 10.0.0.1:69 img -> 69 0001696d67006f6374657400
1 1100 nbr eth0 -> 0 800000004f4e0002
1 18446744073709551615  -> 65535 \n";
    assert_eq!(rt; trace_text(rt.alloc(), sends.as_slice())?.as_slice(), want);
    Ok(())
}
