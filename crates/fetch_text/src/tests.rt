//! Each cause, as it is printed.

use super::*;
use find_fetch::Miss;
use std::test::Fail;
use tftp_client::TftpMiss;

#[test]
fn each_miss_has_its_line(rt: HostRuntime) -> Result<(), Fail> {
    let rows: [(Miss, &[u8]); 10] = [
        (Miss::NoFile, b"miss x: no file\n"),
        (Miss::Short { want: 9, got: 0 }, b"miss x: short 9 0\n"),
        (Miss::BadUrl, b"miss x: bad url\n"),
        (Miss::Scheme, b"miss x: scheme\n"),
        (Miss::NoServer, b"miss x: no name server\n"),
        (
            Miss::Tftp(TftpMiss::Refused(65535)),
            b"miss x: refused 65535\n",
        ),
        (Miss::Tftp(TftpMiss::Silent), b"miss x: silent\n"),
        (Miss::Tftp(TftpMiss::TooLarge), b"miss x: too large\n"),
        (Miss::Tftp(TftpMiss::Flooded), b"miss x: flooded\n"),
        (Miss::TooLarge, b"miss x: too large\n"),
    ];
    for (miss, want) in rows {
        assert_eq!(rt; miss_line(rt.alloc(), b"x", miss)?.as_slice(), want);
    }
    Ok(())
}

#[test]
fn a_body_has_its_length(rt: HostRuntime) -> Result<(), Fail> {
    let line = found_line(rt.alloc(), b"file://usb0/onie-installer", 33_554_432)?;
    assert_eq!(rt;
        line.as_slice(),
        b"found file://usb0/onie-installer: 33554432 bytes\n".as_slice()
    );
    Ok(())
}
