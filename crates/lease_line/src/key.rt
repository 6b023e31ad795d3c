//! The keys of a line.

ghost use Rattle.std.specs.Prelude.{◌≡◌};
ghost use Rattle.lease_line.specs.Keys.{key_of};

/// What a word gives, by what stands before its `=`.
#[derive(Clone, Copy)]
pub(crate) enum Key {
    /// `mask`: option 1, a list of addresses.
    Mask,
    /// `router`: option 3, a list of addresses.
    Router,
    /// `dns`: option 6, a list of addresses.
    Dns,
    /// `www`: option 72, a list of addresses.
    Www,
    /// `tftps`: option 150, a list of addresses.
    Tftps,
    /// `tftp`: option 66, a text.
    Tftp,
    /// `file`: option 67, a text.
    File,
    /// `url`: option 114, a text.
    Url,
    /// `onie`: ONIE's sub-option 1 in option 125, a text.
    Onie,
    /// `update`: ONIE's sub-option 2 in option 125, a text.
    Update,
    /// `siaddr`: the next server of the boot, an address.
    Siaddr,
}

impl Key {
    /// The key of this name, if there is one.
    pub(crate) fn named(name: &[u8]) -> Option<Key>
        ensures { result ≡ key_of name.now }
    {
        if name == b"mask".as_slice() {
            return Some(Key::Mask);
        }
        if name == b"router".as_slice() {
            return Some(Key::Router);
        }
        if name == b"dns".as_slice() {
            return Some(Key::Dns);
        }
        if name == b"www".as_slice() {
            return Some(Key::Www);
        }
        if name == b"tftps".as_slice() {
            return Some(Key::Tftps);
        }
        if name == b"tftp".as_slice() {
            return Some(Key::Tftp);
        }
        if name == b"file".as_slice() {
            return Some(Key::File);
        }
        if name == b"url".as_slice() {
            return Some(Key::Url);
        }
        if name == b"onie".as_slice() {
            return Some(Key::Onie);
        }
        if name == b"update".as_slice() {
            return Some(Key::Update);
        }
        if name == b"siaddr".as_slice() {
            return Some(Key::Siaddr);
        }
        None
    }
}
