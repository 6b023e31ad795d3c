//! Which bytes a text can spell.

ghost use Rattle.std.specs.Prelude.{◌≡◌, ◌↔◌, IsTrue};
ghost use Rattle.tlv_text.specs.Values.{HasForm, IsDate, is_printable, stands_for};

use bd_codes::Kind;

/// A date and a time of day, with a letter where a digit is to stand.
const DATE: &[u8] = b"MM/DD/YYYY HH:MM:SS";

/// Whether the byte is a printable ASCII character, which the space is too.
pub(crate) fn is_printable(byte: u8) -> bool
    ensures { result ≡ is_printable byte }
{
    (b' '..=b'~').contains(&byte)
}

fn stands_for(byte: u8, mark: u8) -> bool
    ensures { result ≡ stands_for byte mark }
{
    if mark.is_ascii_alphabetic() {
        byte.is_ascii_digit()
    } else {
        byte == mark
    }
}

fn is_date(text: &[u8]) -> bool
    ensures { IsTrue result ↔ IsDate text.now }
{
    text.len() == DATE.len()
        && text
            .iter()
            .zip(DATE)
            .all(|(byte, mark)| stands_for(*byte, *mark))
}

/// Whether a text can spell these bytes as a value of the kind.
pub(crate) fn has_form(kind: Kind, value: &[u8]) -> bool
    ensures { IsTrue result ↔ HasForm kind value.now }
{
    match kind {
        Kind::Text => value.iter().all(|byte| is_printable(*byte)),
        Kind::Date => is_date(value),
        Kind::Letters => value.iter().all(|byte| byte.is_ascii_alphabetic()),
        _ => true,
    }
}
