//! Against the format: the names and the order that it gives for boards whose data other software wrote.

use super::*;
use bd_dev::{Bytes, Memory, Names};
use bd_mode::Mode;
use std::alloc::Global;
use std::test::Fail;
use tlvinfo::{Identity, decode, identity};

/// A board of the platform `x86_64-kvm_x86_64-r0`.
const KVM: &[u8] =
    b"TlvInfo\0\x01\0$(\x14x86_64-kvm_x86_64-r0$\x06\0\x11\"3DU\xfe\x04\x99!\xba\x7f";

/// A board of the platform `x-x-r0`, whose arch and machine are spelled alike.
const ALIKE: &[u8] = b"TlvInfo\0\x01\0\x16(\x06x-x-r0$\x06\0\x11\"3DU\xfe\x04a\xac\x19%";

fn board(alloc: Global, bytes: &[u8]) -> Result<Identity, Fail> {
    let info = decode(alloc, bytes)?;
    Ok(identity(&info)?)
}

fn push_line(text: &mut Bytes, line: &[u8]) -> Result<(), Memory> {
    text.push_slice(line)?;
    text.push_slice(b"\n")?;
    Ok(())
}

#[test]
fn names_stand_in_order(rt: HostRuntime) -> Result<(), Fail> {
    let identity = board(rt.alloc(), KVM)?;
    let installers: &[u8] = b"\
onie-installer-x86_64-kvm_x86_64-r0
onie-installer-x86_64-kvm_x86_64-r0.bin
onie-installer-x86_64-kvm_x86_64
onie-installer-x86_64-kvm_x86_64.bin
onie-installer-kvm_x86_64
onie-installer-kvm_x86_64.bin
onie-installer-x86_64
onie-installer-x86_64.bin
onie-installer
onie-installer.bin
";
    let installers_for_silicon: &[u8] = b"\
onie-installer-x86_64-kvm_x86_64-r0
onie-installer-x86_64-kvm_x86_64-r0.bin
onie-installer-x86_64-kvm_x86_64
onie-installer-x86_64-kvm_x86_64.bin
onie-installer-kvm_x86_64
onie-installer-kvm_x86_64.bin
onie-installer-x86_64-bcm
onie-installer-x86_64-bcm.bin
onie-installer-x86_64
onie-installer-x86_64.bin
onie-installer
onie-installer.bin
";
    let updaters: &[u8] = b"\
onie-updater-x86_64-kvm_x86_64-r0
onie-updater-x86_64-kvm_x86_64-r0.bin
onie-updater-x86_64-kvm_x86_64
onie-updater-x86_64-kvm_x86_64.bin
onie-updater-kvm_x86_64
onie-updater-kvm_x86_64.bin
onie-updater-x86_64
onie-updater-x86_64.bin
onie-updater
onie-updater.bin
";
    let table: [(Option<&[u8]>, Mode, &[u8]); 6] = [
        (None, Mode::Install, installers),
        (None, Mode::Rescue, installers),
        (None, Mode::Uninstall, installers),
        (Some(b"bcm"), Mode::Install, installers_for_silicon),
        (None, Mode::Update, updaters),
        (None, Mode::Embed, updaters),
    ];
    for (silicon, mode, want) in table {
        let mut text = Bytes::from_slice(rt.alloc(), b"")?;
        for name in names(rt.alloc(), &identity, silicon, mode)?.as_slice() {
            push_line(&mut text, name.as_slice())?;
        }
        assert_eq!(rt; text.as_slice(), want, "{mode:?}");
    }
    Ok(())
}

#[test]
fn candidates_stand_once_in_order(rt: HostRuntime) -> Result<(), Fail> {
    let twenty: &[u8] = b"\
file://usb0/onie-installer-x86_64-kvm_x86_64-r0
file://usb0/onie-installer-x86_64-kvm_x86_64-r0.bin
file://usb0/onie-installer-x86_64-kvm_x86_64
file://usb0/onie-installer-x86_64-kvm_x86_64.bin
file://usb0/onie-installer-kvm_x86_64
file://usb0/onie-installer-kvm_x86_64.bin
file://usb0/onie-installer-x86_64
file://usb0/onie-installer-x86_64.bin
file://usb0/onie-installer
file://usb0/onie-installer.bin
file://usb1/onie-installer-x86_64-kvm_x86_64-r0
file://usb1/onie-installer-x86_64-kvm_x86_64-r0.bin
file://usb1/onie-installer-x86_64-kvm_x86_64
file://usb1/onie-installer-x86_64-kvm_x86_64.bin
file://usb1/onie-installer-kvm_x86_64
file://usb1/onie-installer-kvm_x86_64.bin
file://usb1/onie-installer-x86_64
file://usb1/onie-installer-x86_64.bin
file://usb1/onie-installer
file://usb1/onie-installer.bin
";
    let eight: &[u8] = b"\
file://usb0/onie-installer-x-x-r0
file://usb0/onie-installer-x-x-r0.bin
file://usb0/onie-installer-x-x
file://usb0/onie-installer-x-x.bin
file://usb0/onie-installer-x
file://usb0/onie-installer-x.bin
file://usb0/onie-installer
file://usb0/onie-installer.bin
";
    let updaters: &[u8] = b"\
file://usb0/onie-updater-x-x-r0
file://usb0/onie-updater-x-x-r0.bin
file://usb0/onie-updater-x-x
file://usb0/onie-updater-x-x.bin
file://usb0/onie-updater-x
file://usb0/onie-updater-x.bin
file://usb0/onie-updater
file://usb0/onie-updater.bin
";
    let table: [(&[u8], Mode, &[&[u8]], &[u8]); 5] = [
        (KVM, Mode::Install, &[b"usb0", b"net", b"usb1"], twenty),
        (ALIKE, Mode::Install, &[b"usb0"], eight),
        (ALIKE, Mode::Install, &[b"usb0", b"usb0"], eight),
        (ALIKE, Mode::Update, &[b"net", b"usb0", b"net"], updaters),
        (KVM, Mode::Install, &[b"net"], b""),
    ];
    for (bytes, mode, volumes, want) in table {
        let identity = board(rt.alloc(), bytes)?;
        let mut names = Names::new(rt.alloc());
        for volume in volumes {
            names.push(Bytes::from_slice(rt.alloc(), volume)?)?;
        }
        let mut text = Bytes::from_slice(rt.alloc(), b"")?;
        for candidate in &candidates(rt.alloc(), &identity, mode, &names)? {
            push_line(&mut text, candidate.shown.as_slice())?;
        }
        assert_eq!(rt; text.as_slice(), want);
    }
    Ok(())
}

#[test]
fn candidate_names_its_file(rt: HostRuntime) -> Result<(), Fail> {
    let identity = board(rt.alloc(), ALIKE)?;
    let mut volumes = Names::new(rt.alloc());
    volumes.push(Bytes::from_slice(rt.alloc(), b"usb0")?)?;
    let list = candidates(rt.alloc(), &identity, Mode::Install, &volumes)?;
    assert_eq!(rt; list.len(), 8);
    let Place::Local { volume, name } = &list[7].place else {
        return Err(Fail::new("no file"));
    };
    assert_eq!(rt; volume.as_slice(), b"usb0".as_slice());
    assert_eq!(rt; name.as_slice(), b"onie-installer.bin".as_slice());
    Ok(())
}
