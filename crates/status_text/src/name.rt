//! Names of entries, as they are printed.

ghost use Rattle.std.specs.Prelude.{◌≡◌, ◌≤◌, take};
ghost use Rattle.status_text.specs.StatusText.{shown_name, shown_unit};

/// A unit of UTF-16 in ASCII: `?` where it is not printable ASCII.
fn shown(unit: u16) -> u8
    ensures { result ≡ shown_unit unit }
{
    if (0x20..=0x7E).contains(&unit) {
        unit as u8
    } else {
        b'?'
    }
}

/// A name in ASCII, up to its first zero unit: the text, and its length in bytes.
pub(crate) fn shown_bytes(name: &[u16; 36]) -> ([u8; 36], usize)
    ensures short { result.1 ≤ 36 }
    ensures text { take result.1 result.0 ≡ shown_name name.now }
{
    let mut text = [0; 36];
    for place in 0..36 {
        let unit = name[place];
        if unit == 0 {
            return (text, place);
        }
        text[place] = shown(unit);
    }
    (text, 36)
}
