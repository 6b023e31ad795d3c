//! Worked lists.

use super::*;
use arrayvec::ArrayVec;
use bd_dev::{Bytes, Memory, Names};
use bd_mode::Mode;
use bd_text::{Mac, V4};
use dhcp_lease::Lease;
use std::alloc::Global;
use std::test::Fail;
use tlvinfo::{Identity, decode, identity};

/// A board of the platform `x86_64-kvm_x86_64-r0`.
const KVM: &[u8] =
    b"TlvInfo\0\x01\0$(\x14x86_64-kvm_x86_64-r0$\x06\0\x11\"3DU\xfe\x04\x99!\xba\x7f";

/// What a lease gives beside the server 10.0.0.1; an empty text stands for none.
#[derive(Clone, Copy)]
struct Given<'a> {
    address: [u8; 4],
    siaddr: [u8; 4],
    www: &'a [[u8; 4]],
    tftps: &'a [[u8; 4]],
    tftp_name: &'a [u8],
    file: &'a [u8],
    url: &'a [u8],
    install: &'a [u8],
    update: &'a [u8],
}

/// A lease of 10.0.0.20 that says nothing more.
const BARE: Given<'static> = Given {
    address: [10, 0, 0, 20],
    siaddr: [0, 0, 0, 0],
    www: &[],
    tftps: &[],
    tftp_name: b"",
    file: b"",
    url: b"",
    install: b"",
    update: b"",
};

fn board(alloc: Global) -> Result<Identity, Fail> {
    let info = decode(alloc, KVM)?;
    Ok(identity(&info)?)
}

fn text(alloc: Global, text: &[u8]) -> Result<Option<Bytes>, Memory> {
    if text.is_empty() {
        return Ok(None);
    }
    Ok(Some(Bytes::from_slice(alloc, text)?))
}

/// The first eight of the addresses.
fn addresses(list: &[[u8; 4]]) -> ArrayVec<V4, 8> {
    let mut found = ArrayVec::new();
    for bytes in list {
        if !found.is_full() {
            found.push(V4 { bytes: *bytes });
        }
    }
    found
}

/// An interface with this lease.
fn port(alloc: Global, given: Given<'_>) -> Result<Port, Memory> {
    let lease = Lease {
        address: V4 {
            bytes: given.address,
        },
        server: V4 {
            bytes: [10, 0, 0, 1],
        },
        siaddr: V4 {
            bytes: given.siaddr,
        },
        dns: addresses(&[]),
        www: addresses(given.www),
        tftps: addresses(given.tftps),
        tftp_name: text(alloc, given.tftp_name)?,
        file: text(alloc, given.file)?,
        url: text(alloc, given.url)?,
        onie_install: text(alloc, given.install)?,
        onie_update: text(alloc, given.update)?,
    };
    Ok(Port {
        name: Bytes::from_slice(alloc, b"eth0")?,
        mac: Mac {
            bytes: [0x00, 0x11, 0x22, 0x33, 0x44, 0x55],
        },
        lease: Some(lease),
    })
}

/// Whether the candidate is a URL, or of the widest name, or of the boot file `boot`.
fn is_printed(candidate: &Candidate) -> bool {
    let shown = candidate.shown.as_slice();
    matches!(candidate.place, Place::Url)
        || shown.ends_with(b"/onie-installer")
        || shown.ends_with(b"/onie-updater")
        || shown.ends_with(b"/boot")
}

/// The lines of these candidates.
fn lines(alloc: Global, list: &[Candidate]) -> Result<Bytes, Memory> {
    let mut text = Bytes::from_slice(alloc, b"")?;
    for candidate in list {
        if is_printed(candidate) {
            text.push_slice(candidate.shown.as_slice())?;
            text.push_slice(b"\n")?;
        }
    }
    Ok(text)
}

/// What a lease gives, how many candidates that makes, and the lines of URLs, of the widest name and of the boot file.
#[test]
fn leases_give_candidates_in_order(rt: HostRuntime) -> Result<(), Fail> {
    for (given, count, want, name) in [
        (
            BARE,
            10,
            b"http://10.0.0.1/onie-installer\n".as_slice(),
            "a server alone",
        ),
        (
            Given {
                tftp_name: b"10.0.0.1",
                ..BARE
            },
            110,
            b"\
http://10.0.0.1/onie-installer
tftp://10.0.0.1/00-11-22-33-44-55/onie-installer
tftp://10.0.0.1/0A000014/onie-installer
tftp://10.0.0.1/0A00001/onie-installer
tftp://10.0.0.1/0A0000/onie-installer
tftp://10.0.0.1/0A000/onie-installer
tftp://10.0.0.1/0A00/onie-installer
tftp://10.0.0.1/0A0/onie-installer
tftp://10.0.0.1/0A/onie-installer
tftp://10.0.0.1/0/onie-installer
tftp://10.0.0.1/onie-installer
",
            "a TFTP server",
        ),
        (
            Given {
                address: [192, 168, 1, 178],
                siaddr: [10, 0, 0, 9],
                ..BARE
            },
            120,
            b"\
http://10.0.0.9/onie-installer
http://10.0.0.1/onie-installer
tftp://10.0.0.9/00-11-22-33-44-55/onie-installer
tftp://10.0.0.9/C0A801B2/onie-installer
tftp://10.0.0.9/C0A801B/onie-installer
tftp://10.0.0.9/C0A801/onie-installer
tftp://10.0.0.9/C0A80/onie-installer
tftp://10.0.0.9/C0A8/onie-installer
tftp://10.0.0.9/C0A/onie-installer
tftp://10.0.0.9/C0/onie-installer
tftp://10.0.0.9/C/onie-installer
tftp://10.0.0.9/onie-installer
",
            "the next server of the boot",
        ),
        (
            Given {
                install: b"http://10.0.0.5/a",
                update: b"http://10.0.0.5/u",
                url: b"http://10.0.0.5/a",
                ..BARE
            },
            11,
            b"http://10.0.0.5/a\nhttp://10.0.0.1/onie-installer\n",
            "one text twice",
        ),
        (
            Given {
                install: b"HTTP://Host.EXAMPLE:80/a/../i",
                url: b"img/onie.bin",
                file: b"tftp://10.0.0.7/boot",
                ..BARE
            },
            13,
            b"\
http://host.example/i
img/onie.bin
tftp://10.0.0.7/boot
http://10.0.0.1/onie-installer
",
            "URLs as they are written, and a text that is none",
        ),
        (
            Given {
                file: b"boot",
                ..BARE
            },
            10,
            b"http://10.0.0.1/onie-installer\n",
            "a boot file without a server",
        ),
        (
            Given {
                url: b"http://10.0.0.1/onie-installer",
                ..BARE
            },
            10,
            b"http://10.0.0.1/onie-installer\n",
            "a URL that is a file of a server",
        ),
    ] {
        let identity = board(rt.alloc())?;
        let fixed = Fixed {
            url: None,
            silicon: None,
        };
        let ports = [port(rt.alloc(), given)?];
        let volumes = Names::new(rt.alloc());
        let list = candidates(
            rt.alloc(),
            &identity,
            Mode::Install,
            &fixed,
            &volumes,
            ports.as_slice(),
        )?;
        assert_eq!(rt; list.len(), count, "{name}");
        assert_eq!(rt; lines(rt.alloc(), &list)?.as_slice(), want, "{name}");
    }
    Ok(())
}

/// All parts of the list, over two leases, for the two kinds of installers.
#[test]
fn parts_stand_in_order(rt: HostRuntime) -> Result<(), Fail> {
    for (mode, want) in [
        (
            Mode::Install,
            b"\
http://10.0.0.8/fixed
file://usb0/onie-installer
http://10.0.0.5/i
http://10.0.0.5/u
tftp://10.0.2.1/boot
http://10.0.0.6/u
http://10.0.1.1/onie-installer
http://10.0.1.2/onie-installer
http://10.0.2.1/onie-installer
http://10.0.0.9/onie-installer
http://10.0.0.1/onie-installer
tftp://10.0.2.1/00-11-22-33-44-55/onie-installer
tftp://10.0.2.1/FFFFFFFF/onie-installer
tftp://10.0.2.1/FFFFFFF/onie-installer
tftp://10.0.2.1/FFFFFF/onie-installer
tftp://10.0.2.1/FFFFF/onie-installer
tftp://10.0.2.1/FFFF/onie-installer
tftp://10.0.2.1/FFF/onie-installer
tftp://10.0.2.1/FF/onie-installer
tftp://10.0.2.1/F/onie-installer
tftp://10.0.2.1/onie-installer
"
                .as_slice(),
        ),
        (
            Mode::Embed,
            b"\
http://10.0.0.8/fixed
file://usb0/onie-updater
http://10.0.0.5/n
http://10.0.0.5/u
tftp://10.0.2.1/boot
http://10.0.0.6/u
http://10.0.1.1/onie-updater
http://10.0.1.2/onie-updater
http://10.0.2.1/onie-updater
http://10.0.0.9/onie-updater
http://10.0.0.1/onie-updater
tftp://10.0.2.1/00-11-22-33-44-55/onie-updater
tftp://10.0.2.1/FFFFFFFF/onie-updater
tftp://10.0.2.1/FFFFFFF/onie-updater
tftp://10.0.2.1/FFFFFF/onie-updater
tftp://10.0.2.1/FFFFF/onie-updater
tftp://10.0.2.1/FFFF/onie-updater
tftp://10.0.2.1/FFF/onie-updater
tftp://10.0.2.1/FF/onie-updater
tftp://10.0.2.1/F/onie-updater
tftp://10.0.2.1/onie-updater
",
        ),
    ] {
        let identity = board(rt.alloc())?;
        let fixed = Fixed {
            url: text(rt.alloc(), b"http://10.0.0.8/fixed")?,
            silicon: text(rt.alloc(), b"bcm")?,
        };
        let first = Given {
            address: [255, 255, 255, 255],
            siaddr: [10, 0, 0, 9],
            www: &[[10, 0, 1, 1], [10, 0, 1, 2]],
            tftps: &[[10, 0, 2, 1], [10, 0, 1, 2]],
            file: b"/boot",
            url: b"http://10.0.0.5/u",
            install: b"http://10.0.0.5/i",
            update: b"http://10.0.0.5/n",
            ..BARE
        };
        let second = Given {
            url: b"http://10.0.0.6/u",
            ..BARE
        };
        let none = Port {
            name: Bytes::from_slice(rt.alloc(), b"eth1")?,
            mac: Mac { bytes: [0; 6] },
            lease: None,
        };
        let ports = [port(rt.alloc(), first)?, none, port(rt.alloc(), second)?];
        let mut volumes = Names::new(rt.alloc());
        volumes.push(Bytes::from_slice(rt.alloc(), b"net")?)?;
        volumes.push(Bytes::from_slice(rt.alloc(), b"usb0")?)?;
        let list = candidates(
            rt.alloc(),
            &identity,
            mode,
            &fixed,
            &volumes,
            ports.as_slice(),
        )?;
        assert_eq!(rt; lines(rt.alloc(), &list)?.as_slice(), want, "{mode:?}");
    }
    Ok(())
}

/// The text and a digit.
fn numbered(alloc: Global, front: &[u8], number: u8) -> Result<Option<Bytes>, Memory> {
    let mut text = Bytes::from_slice(alloc, front)?;
    text.push_slice(&[b'0' + number % 10])?;
    Ok(Some(text))
}

/// The interface of this number, with all that a lease can give.
fn full_port(alloc: Global, number: u8) -> Result<Port, Memory> {
    let mut www = [[10, number, 1, 0]; 8];
    let mut tftps = [[10, number, 2, 0]; 8];
    for i in 0..8u8 {
        www[usize::from(i)] = [10, number, 1, i];
        tftps[usize::from(i)] = [10, number, 2, i];
    }
    let mut full = port(
        alloc,
        Given {
            address: [10, number, 0, 20],
            siaddr: [10, number, 0, 9],
            www: www.as_slice(),
            tftps: tftps.as_slice(),
            ..BARE
        },
    )?;
    if let Some(lease) = &mut full.lease {
        lease.server = V4 {
            bytes: [10, number, 0, 1],
        };
        lease.onie_install = numbered(alloc, b"http://10.0.0.5/i", number)?;
        lease.url = numbered(alloc, b"http://10.0.0.5/u", number)?;
        lease.file = numbered(alloc, b"http://10.0.0.5/f", number)?;
    }
    Ok(full)
}

#[test]
fn eight_leases_and_a_thousand_volumes(rt: HostRuntime) -> Result<(), Fail> {
    let identity = board(rt.alloc())?;
    let fixed = Fixed {
        url: None,
        silicon: None,
    };
    let mut ports = Vec::new(rt.alloc());
    for number in 0..8u8 {
        ports.push(full_port(rt.alloc(), number)?)?;
    }
    let mut volumes = Names::new(rt.alloc());
    for number in 0..1000u32 {
        let mut name = Bytes::from_slice(rt.alloc(), b"usb-")?;
        name.push_slice(&number.to_be_bytes())?;
        volumes.push(name)?;
    }
    let list = candidates(
        rt.alloc(),
        &identity,
        Mode::Install,
        &fixed,
        &volumes,
        ports.as_slice(),
    )?;
    assert_eq!(rt; list.len(), 10000 + 2264);
    Ok(())
}
