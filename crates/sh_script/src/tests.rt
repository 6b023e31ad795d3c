//! What no clause says: which bytes are a line of their own.

use crate::split;

#[test]
fn rows(rt: HostRuntime) {
    let rows: [(&[u8], &[u8], &[u8]); 6] = [
        (b"", b"", b""),
        (
            b"a\nexit_marker\nb\nexit_marker\n",
            b"a\nexit_marker\n",
            b"b\nexit_marker\n",
        ),
        (b"exit_marker\n", b"exit_marker\n", b""),
        (b" exit_marker\nb", b" exit_marker\nb", b""),
        (b"exit_marker \nb", b"exit_marker \nb", b""),
        (b"a\nexit_marker", b"a\nexit_marker", b""),
    ];
    for (installer, script, payload) in rows {
        let parts = split(installer);
        assert!(rt; parts.0 == script);
        assert!(rt; parts.1 == payload);
    }
}
