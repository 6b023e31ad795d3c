//! A row of a table of codes.

ghost use Rattle.std.specs.Prelude.{◌≡◌};
ghost use Rattle.bd_codes.specs.Row.{row_allows};

/// What a value is, and so how it is read and shown.
#[derive(Clone, Copy, Debug, PartialEq, Eq)]
pub enum Kind {
    /// A text.
    Text,
    /// A MAC address, of six bytes.
    Mac,
    /// A date and a time of day as text, `MM/DD/YYYY hh:mm:ss`.
    Date,
    /// A number of one byte.
    Byte,
    /// A number of two bytes, the highest first.
    Word,
    /// A code of letters, as the two of a country.
    Letters,
    /// Bytes with no meaning here.
    Raw,
    /// A checksum of four bytes, the highest first.
    Sum,
    /// An IPv4 address, of four bytes.
    Address,
    /// IPv4 addresses, of four bytes each.
    Addresses,
    /// A time in seconds, of four bytes, the highest first.
    Seconds,
    /// Fields of a vendor's own.
    Vendor,
}

/// What a table says of a code.
#[derive(Clone, Copy, Debug, PartialEq, Eq)]
pub struct Row {
    /// The code.
    pub code: u8,
    /// What a value of it is.
    pub kind: Kind,
    /// The least length of a value, in bytes.
    pub least: u8,
    /// The greatest length of a value, in bytes.
    pub greatest: u8,
}

impl Row {
    /// Whether a value of the code may have this length, in bytes.
    pub fn allows(&self, length: usize) -> bool
        ensures { result ≡ row_allows self.now length }
    {
        (usize::from(self.least)..=usize::from(self.greatest)).contains(&length)
    }
}

#[cfg(test)]
mod tests {
    use super::*;

    #[test]
    fn allows_its_lengths(rt: HostRuntime) {
        let row = Row {
            code: 7,
            kind: Kind::Raw,
            least: 2,
            greatest: 4,
        };
        for (length, want) in [
            (0, false),
            (1, false),
            (2, true),
            (4, true),
            (5, false),
            (260, false),
        ] {
            assert_eq!(rt; row.allows(length), want, "{length} bytes");
        }
    }
}
