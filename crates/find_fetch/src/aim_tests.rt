//! Worked candidates: where a request for each goes, and what it asks for.

use super::*;
use bd_dev::Bytes;
use std::alloc::Global;
use std::test::Fail;
use url_waterfall::{Candidate, Place};

/// What is to be done for a request: the kind of its host, and its label.
fn request_text(alloc: Global, request: &Aim) -> Result<Bytes, Fail> {
    let (kind, host): (&[u8], &Bytes) = match &request.spot {
        Spot::At(host) => (b"at ", host),
        Spot::Called(name) => (b"called ", name),
    };
    let mut text = Bytes::from_slice(alloc, kind)?;
    text.push_slice(body_label(alloc, request, host.as_slice())?.as_slice())?;
    Ok(text)
}

/// What is to be done for a candidate.
fn aimed_text(alloc: Global, candidate: &Candidate) -> Result<Bytes, Fail> {
    let text: &[u8] = match &aim(alloc, candidate)? {
        Aimed::Aim(request) => return request_text(alloc, request),
        Aimed::Local => b"local",
        Aimed::Refused(Miss::BadUrl) => b"bad URL",
        Aimed::Refused(Miss::Scheme) => b"scheme",
        Aimed::Refused(_) => b"another miss",
    };
    Ok(Bytes::from_slice(alloc, text)?)
}

/// What is to be done for the URL.
fn url_aimed(alloc: Global, shown: &[u8]) -> Result<Bytes, Fail> {
    let candidate = Candidate {
        place: Place::Url,
        shown: Bytes::from_slice(alloc, shown)?,
    };
    aimed_text(alloc, &candidate)
}

/// What is to be done for the file of this path on this server, over TFTP.
fn file_aimed(alloc: Global, server: &[u8], path: &[u8]) -> Result<Bytes, Fail> {
    let mut shown = Bytes::from_slice(alloc, b"tftp://")?;
    shown.push_slice(server)?;
    shown.push_slice(b"/")?;
    shown.push_slice(path)?;
    let candidate = Candidate {
        place: Place::Tftp {
            server: Bytes::from_slice(alloc, server)?,
            path: Bytes::from_slice(alloc, path)?,
        },
        shown,
    };
    aimed_text(alloc, &candidate)
}

#[test]
fn urls_are_asked_for(rt: HostRuntime) -> Result<(), Fail> {
    let rows: [(&[u8], &[u8]); 14] = [
        (b"tftp://10.0.0.1/img", b"at tftp 10.0.0.1:69 img"),
        (b"tftp://10.0.0.1:70/a/b?c#d", b"at tftp 10.0.0.1:70 a/b?c"),
        (b"tftp://[FE80:0::1]:69/x", b"at tftp [fe80::1]:69 x"),
        (b"tftp://h?q", b"called tftp h:69 ?q"),
        (b"tftp://1.2.3.4./x", b"called tftp 1.2.3.4:69 x"),
        (b"tftp://010.0.0.5/x", b"called tftp 010.0.0.5:69 x"),
        (b"tftp://300.1.1.1/x", b"called tftp 300.1.1.1:69 x"),
        (b"tftp://img.example./x", b"called tftp img.example:69 x"),
        (b"tftp://IMG.example/x", b"called tftp IMG.example:69 x"),
        (b"tftp://@h/x", b"called tftp h:69 x"),
        (b"tftp://:@h/x", b"called tftp h:69 x"),
        (b"tftp://h//x", b"called tftp h:69 /x"),
        (b"tftp://h/%41", b"called tftp h:69 %41"),
        (b"TFTP://h:69/x", b"called tftp h:69 x"),
    ];
    for (shown, want) in rows {
        assert_eq!(rt; url_aimed(rt.alloc(), shown)?.as_slice(), want);
    }
    Ok(())
}

#[test]
fn urls_are_refused(rt: HostRuntime) -> Result<(), Fail> {
    let bad: [&[u8]; 18] = [
        b"",
        b"img",
        b"tftp://",
        b"tftp:///x",
        b"tftp:x",
        b"tftp://h",
        b"tftp://h/",
        b"tftp://u@h/x",
        b"tftp://:p@h/x",
        b"tftp://h:0/x",
        b"tftp://h:99999/x",
        b"tftp://[fe80::1/x",
        b"tftp://%31.2.3.4/x",
        b"tftp://a..b/x",
        b"tftp://./x",
        b"tftp://h/\xc3\xa9",
        b"http://[fe80::2%eth0]/onie-installer",
        b"https://300.1.1.1/",
    ];
    for shown in bad {
        assert_eq!(rt;
            url_aimed(rt.alloc(), shown)?.as_slice(),
            b"bad URL".as_slice()
        );
    }
    let others: [&[u8]; 5] = [
        b"http://10.0.0.5/a",
        b"https://u@h:0/",
        b"ftp://h/a",
        b"file://usb0/onie-installer",
        b"mailto:x",
    ];
    for shown in others {
        assert_eq!(rt;
            url_aimed(rt.alloc(), shown)?.as_slice(),
            b"scheme".as_slice()
        );
    }
    Ok(())
}

#[test]
fn files_are_asked_for(rt: HostRuntime) -> Result<(), Fail> {
    let rows: [(&[u8], &[u8], &[u8]); 7] = [
        (b"srv:70", b"a", b"called tftp srv:70 a"),
        (b"[fe80::1]", b"a", b"at tftp [fe80::1]:69 a"),
        (b"10.0.0.1", b"a?b#c", b"at tftp 10.0.0.1:69 a?b#c"),
        (b"fe80::1", b"a", b"bad URL"),
        (b"u@h", b"a", b"bad URL"),
        (b"h:0", b"a", b"bad URL"),
        (b"h", b"", b"bad URL"),
    ];
    for (server, path, want) in rows {
        assert_eq!(rt; file_aimed(rt.alloc(), server, path)?.as_slice(), want);
    }
    Ok(())
}

#[test]
fn long_paths_are_refused(rt: HostRuntime) -> Result<(), Fail> {
    let path = [b'a'; 401];
    let rows: [(usize, usize); 2] = [(400, 420), (401, 7)];
    for (size, want) in rows {
        let mut shown = Bytes::from_slice(rt.alloc(), b"tftp://10.0.0.1/")?;
        shown.push_slice(&path[..size])?;
        assert_eq!(rt;
            url_aimed(rt.alloc(), shown.as_slice())?.as_slice().len(),
            want
        );
        assert_eq!(rt;
            file_aimed(rt.alloc(), b"10.0.0.1", &path[..size])?
                .as_slice()
                .len(),
            want
        );
    }
    Ok(())
}

#[test]
fn long_labels_are_refused(rt: HostRuntime) -> Result<(), Fail> {
    let host = [b'a'; 64];
    let rows: [(usize, usize); 2] = [(63, 80), (64, 7)];
    for (size, want) in rows {
        assert_eq!(rt;
            file_aimed(rt.alloc(), &host[..size], b"x")?
                .as_slice()
                .len(),
            want
        );
    }
    Ok(())
}

#[test]
fn file_of_a_medium_is_local(rt: HostRuntime) -> Result<(), Fail> {
    let candidate = Candidate {
        place: Place::Local {
            volume: Bytes::from_slice(rt.alloc(), b"usb0")?,
            name: Bytes::from_slice(rt.alloc(), b"onie-installer")?,
        },
        shown: Bytes::from_slice(rt.alloc(), b"file://usb0/onie-installer")?,
    };
    assert_eq!(rt;
        aimed_text(rt.alloc(), &candidate)?.as_slice(),
        b"local".as_slice()
    );
    Ok(())
}
