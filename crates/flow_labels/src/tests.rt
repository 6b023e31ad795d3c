//! Each label once.

use super::*;
use bd_dev::{Bytes, Memory};
use std::alloc::Global;
use std::test::Fail;

/// Whether the text is this one.
fn is(text: Result<Bytes, Memory>, want: &[u8]) -> bool {
    match text {
        Ok(text) => text.as_slice() == want,
        Err(_) => false,
    }
}

#[test]
fn labels_are_written_so(rt: HostRuntime) -> Result<(), Fail> {
    let alloc = rt.alloc();
    let server = server_text(alloc, b"[fe80::2%eth0]", 80)?;
    assert!(rt; server.as_slice() == b"[fe80::2%eth0]:80".as_slice());
    let http = http_label(alloc, server.as_slice(), b"/onie-installer");
    assert!(rt; is(http, b"http [fe80::2%eth0]:80 /onie-installer"));
    assert!(rt;
        is(
            tftp_label(alloc, b"10.0.0.1:69", b"img"),
            b"tftp 10.0.0.1:69 img"
        )
    );
    assert!(rt;
        is(
            dns_label(alloc, b"10.0.0.2", b"files"),
            b"dns 10.0.0.2 files"
        )
    );
    assert!(rt; is(dhcp_label(alloc, b"eth0"), b"dhcp eth0"));
    assert!(rt; is(nbr_label(alloc, b"eth0"), b"nbr eth0"));
    Ok(())
}
