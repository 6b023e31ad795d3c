//! A table of codes.

ghost use Rattle.std.specs.Prelude.{◌≡◌, ◌↔◌, IsSome, IfSome, IsTrue};
ghost use Rattle.bd_codes.specs.Codes.{IsOneRow, Rises, row_at};

use crate::row::Row;
use std::marker::Model;

mod dhcp;
mod tlv;

pub use dhcp::dhcp_codes;
pub use tlv::tlv_codes;

/// A table of `N` codes, whose rows stand in the order of their codes.
#[derive(Drop)]
pub struct Codes<const N: usize> {
    rows: [Row; N],
}

impl<const N: usize> Model for Codes<N> {
    ghost use Rattle.std.specs.Prelude.{List};
    ghost use Rattle.bd_codes.specs.declared.row.Row.{Row};
    ghost use Rattle.bd_codes.specs.Codes.{Rises};

    ghost Value = { List Row };

    ghost view = { λ codes. codes.rows };

    ghost invariant = { λ codes. Rises codes.rows };
}

/// Whether the codes of the rows rise strictly.
fn rise(rows: &[Row]) -> bool
    ensures { IsTrue result ↔ Rises rows.now }
{
    rows.is_sorted_by(|row, next| row.code < next.code)
}

impl<const N: usize> Codes<N> {
    /// The table of these rows. `None` where their codes do not rise strictly.
    pub fn new(rows: [Row; N]) -> Option<Codes<N>>
        ensures rising { IsSome result ↔ Rises rows.entry }
        ensures same { IfSome result (λ codes. codes ≡ rows.entry) }
    {
        if rise(&rows) {
            Some(Codes { rows })
        } else {
            None
        }
    }

    /// The row of a code. `None` where no row has it.
    pub fn find(&self, code: u8) -> Option<Row>
        ensures row { result ≡ row_at self.now code }
        ensures one { IfSome result (IsOneRow self.now code) }
    {
        match self.rows.binary_search_by_key(&code, |row| row.code) {
            Ok(place) => Some(self.rows[place]),
            Err(_) => None,
        }
    }
}

#[cfg(test)]
mod tests {
    use super::*;
    use crate::row::Kind;

    fn row(code: u8) -> Row {
        Row {
            code,
            kind: Kind::Text,
            least: 0,
            greatest: 255,
        }
    }

    #[test]
    fn new_asks_for_rising_codes(rt: HostRuntime) {
        assert!(rt; Codes::new([row(1), row(2), row(255)]).is_some(), "rising");
        assert!(rt; Codes::new([row(1), row(1)]).is_none(), "equal");
        assert!(rt; Codes::new([row(1), row(3), row(2)]).is_none(), "falling");
        assert!(rt; Codes::new([row(9)]).is_some(), "one row");
        assert!(rt; Codes::new([]).is_some(), "no rows");
    }
}
