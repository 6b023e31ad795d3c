use super::*;
use bd_dev::Bytes;
use std::test::Fail;

#[test]
fn letters_stand_in_order(rt: HostRuntime) -> Result<(), Fail> {
    let mut out = Outbox::new(rt.alloc());
    out.push(69, b"one")?;
    out.push(0, b"two")?;
    assert_eq!(rt; out.as_slice().len(), 2);
    assert_eq!(rt; (out.as_slice()[0].port, out.as_slice()[1].port), (69, 0));
    assert_eq!(rt; out.as_slice()[1].bytes.as_slice(), b"two".as_slice());
    out.clear();
    assert_eq!(rt; out.as_slice().len(), 0);
    Ok(())
}

#[test]
fn sends_stand_in_order(rt: HostRuntime) -> Result<(), Fail> {
    let mut sends = Sends::new(rt.alloc());
    for (at, flow) in [(0, 1), (2000, 0)] {
        sends.push(Sent {
            at,
            round: 1,
            flow,
            label: Bytes::from_slice(rt.alloc(), b"a")?,
            port: 69,
            bytes: Bytes::from_slice(rt.alloc(), b"x")?,
        })?;
    }
    assert_eq!(rt; sends.as_slice().len(), 2);
    assert!(rt; sends.as_slice().len() == 2);
    assert_eq!(rt; (sends.as_slice()[0].at, sends.as_slice()[0].flow), (0, 1));
    assert_eq!(rt;
        (sends.as_slice()[1].at, sends.as_slice()[1].flow),
        (2000, 0)
    );
    Ok(())
}
