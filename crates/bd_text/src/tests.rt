//! Values worked by hand and by Python's `ipaddress` and `uuid`.
ghost use Rattle.std.specs.Prelude.{◌≡◌, Some};

use crate::{Guid, Mac, V4, V6};

fn mac_through_text(mac: Mac) -> Option<Mac>
    ensures { result ≡ Some mac }
{
    Mac::parse(mac.text().as_str().as_bytes())
}

#[test]
fn mac(rt: HostRuntime) {
    let texts: [(&[u8], Option<[u8; 6]>); 10] = [
        (
            b"80:A2:35:81:CA:AE",
            Some([0x80, 0xA2, 0x35, 0x81, 0xCA, 0xAE]),
        ),
        (
            b"80:a2:35:81:Ca:aE",
            Some([0x80, 0xA2, 0x35, 0x81, 0xCA, 0xAE]),
        ),
        (b"", None),
        (b"80:A2:35:81:CA", None),
        (b"80:A2:35:81:CA:AE:00", None),
        (b"80-A2-35-81-CA-AE", None),
        (b"80:A2:35:81:CA:AG", None),
        (b"80:A2:35:81:CA:A", None),
        (b"80:A2:35:81:CA:0AE", None),
        (b"80:A2:35:81:CA:AE:", None),
    ];
    for (text, bytes) in texts {
        assert_eq!(rt;
            Mac::parse(text),
            bytes.map(|bytes| Mac { bytes }),
            "{text:?}"
        );
    }
    let mac = Mac {
        bytes: [0x80, 0xA2, 0x35, 0x81, 0xCA, 0xAE],
    };
    assert_eq!(rt; mac_through_text(mac), Some(mac));
    assert_eq!(rt; mac.text().as_str(), "80:A2:35:81:CA:AE");
    let sums = [
        ([0xff; 6], 1, [0; 6]),
        ([0, 0, 0, 0, 0, 0xff], 255, [0, 0, 0, 0, 1, 0xfe]),
        ([0, 0x10, 0xff, 0xff, 0xff, 0xfe], 2, [0, 0x11, 0, 0, 0, 0]),
    ];
    for (bytes, n, sum) in sums {
        assert_eq!(rt; Mac { bytes }.plus(n), Mac { bytes: sum });
    }
}

fn guid_through_text(guid: Guid) -> Option<Guid>
    ensures { result ≡ Some guid }
{
    Guid::parse(guid.text().as_str().as_bytes())
}

#[test]
fn guid(rt: HostRuntime) {
    let onie = [
        0xD5, 0xF7, 0x12, 0x74, 0x56, 0xA1, 0x13, 0x4B, 0x81, 0xDC, 0x86, 0x71, 0x74, 0x92, 0x93,
        0x25,
    ];
    let texts: [(&[u8], Option<[u8; 16]>); 8] = [
        (b"7412F7D5-A156-4B13-81DC-867174929325", Some(onie)),
        (b"7412f7d5-a156-4b13-81dc-867174929325", Some(onie)),
        (b"7412f7d5a1564b1381dc867174929325", None),
        (b"7412f7d5-a156-4b13-81dc-86717492932", None),
        (b"7412f7d5-a156-4b13-81dc-8671749293250", None),
        (b"7412f7d5-a156-4b13-81dc:867174929325", None),
        (b"7412f7d-5a156-4b13-81dc-867174929325", None),
        (b"7412f7g5-a156-4b13-81dc-867174929325", None),
    ];
    for (text, bytes) in texts {
        assert_eq!(rt;
            Guid::parse(text),
            bytes.map(|bytes| Guid { bytes }),
            "{text:?}"
        );
    }
    assert_eq!(rt;
        Guid { bytes: onie }.text().as_str(),
        "7412f7d5-a156-4b13-81dc-867174929325"
    );
}

fn v4_through_text(address: V4) -> Option<V4>
    ensures { result ≡ Some address }
{
    V4::parse(address.text().as_str().as_bytes())
}

#[test]
fn v4(rt: HostRuntime) {
    let texts: [(&[u8], Option<[u8; 4]>); 13] = [
        (b"192.0.2.1", Some([192, 0, 2, 1])),
        (b"0.0.0.0", Some([0, 0, 0, 0])),
        (b"255.255.255.255", Some([255, 255, 255, 255])),
        (b"100.10.9.99", Some([100, 10, 9, 99])),
        (b"", None),
        (b"192.0.2", None),
        (b"192.0.2.1.5", None),
        (b"192.0.2.256", None),
        (b"192.00.2.1", None),
        (b"192.01.2.1", None),
        (b"192.0..1", None),
        (b"192.0.2.1.", None),
        (b"192.0.2.a", None),
    ];
    for (text, bytes) in texts {
        assert_eq!(rt;
            V4::parse(text),
            bytes.map(|bytes| V4 { bytes }),
            "{text:?}"
        );
        if let Some(bytes) = bytes {
            assert_eq!(rt; V4 { bytes }.text().as_str().as_bytes(), text);
        }
    }
    let address = V4 {
        bytes: [198, 51, 100, 7],
    };
    assert_eq!(rt; v4_through_text(address), Some(address));
}

fn v6_through_text(address: V6) -> Option<V6>
    ensures { result ≡ Some address }
{
    V6::parse(address.text().as_str().as_bytes())
}

#[test]
fn v6(rt: HostRuntime) {
    let texts: [(&[u8], Option<&str>); 33] = [
        (b"2001:db8:0:0:1:0:0:1", Some("2001:db8::1:0:0:1")),
        (b"0:0:1:0:0:0:0:1", Some("0:0:1::1")),
        (b"1:0:2:3:4:5:6:7", Some("1:0:2:3:4:5:6:7")),
        (b"::", Some("::")),
        (b"1::", Some("1::")),
        (b"::1", Some("::1")),
        (b"1:2:3:4:5:6:7::", Some("1:2:3:4:5:6:7:0")),
        (b"::2:3:4:5:6:7:8", Some("0:2:3:4:5:6:7:8")),
        (b"2001:DB8::AbCd", Some("2001:db8::abcd")),
        (b"1:0:0:2:0:0:0:3", Some("1:0:0:2::3")),
        (b"0:0:0:1:0:0:0:1", Some("::1:0:0:0:1")),
        (b"0001:0020:0300:4000:0:0:0:0", Some("1:20:300:4000::")),
        (b"1:2:3:4:5:6:7:8", Some("1:2:3:4:5:6:7:8")),
        (b"fe80::0:1", Some("fe80::1")),
        (b"1:0:0:0:0:0:0:0", Some("1::")),
        (b"0:1:0:1:0:1:0:1", Some("0:1:0:1:0:1:0:1")),
        (b"", None),
        (b"1", None),
        (b":", None),
        (b":::", None),
        (b"1:::2", None),
        (b"1::2::3", None),
        (b"1:2:3:4:5:6:7:8:9", None),
        (b"1:2:3:4:5:6:7:8::", None),
        (b"::1:2:3:4:5:6:7:8", None),
        (b"1:2:3:4:5:6:7", None),
        (b":1:2:3:4:5:6:7", None),
        (b"1:2:3:4:5:6:7:", None),
        (b"12345::", None),
        (b"g::", None),
        (b"::1.2.3.4", None),
        (b"fe80::1%eth0", None),
        (b"1: :2", None),
    ];
    for (text, printed) in texts {
        match (V6::parse(text), printed) {
            (Some(address), Some(printed)) => assert_eq!(rt;
                address.text().as_str(),
                printed,
                "{text:?}"
            ),
            (address, printed) => assert!(rt; address.is_none() && printed.is_none(), "{text:?}"),
        }
    }
    let address = V6 {
        bytes: [
            0x20, 0x01, 0x0d, 0xb8, 0, 0, 0, 0, 0, 0x01, 0, 0, 0, 0, 0, 0x01,
        ],
    };
    assert_eq!(rt; V6::parse(b"2001:db8::1:0:0:1"), Some(address));
    assert_eq!(rt; v6_through_text(address), Some(address));
}
