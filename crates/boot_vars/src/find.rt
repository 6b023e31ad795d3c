//! Values by their names.

ghost use Rattle.std.specs.Prelude.{◌≡◌, ◌==◌, true, false, IfSome, IfNone, find, option_map};
ghost use Rattle.std.specs.List.{after_first, before_first, list_any, slice_split};
ghost use Rattle.storage_model.specs.Variables.{is_line_of, value_of};

use memchr::memchr;

/// What stands before the first such byte, and what after it. None where there is no such byte.
pub(crate) fn cut_at(text: &[u8], byte: u8) -> Option<(&[u8], &[u8])>
    ensures cut { IfSome result (λ r. (list_any (λ b. b == byte) text.now ≡ true)
        × (r.0.now ≡ before_first (λ b. b == byte) text.now) × (r.1.now ≡ after_first (λ b. b == byte) text.now)) }
    ensures none { IfNone result (list_any (λ b. b == byte) text.now ≡ false) }
{
    let at = memchr(byte, text)?;
    Some((&text[..at], &text[at + 1..]))
}

/// Whether a line is one of this name.
pub(crate) fn is_line_of(line: &[u8], name: &[u8]) -> bool
    ensures { result ≡ is_line_of name.now line.now }
{
    match cut_at(line, b'=') {
        Some((before, _)) => before == name,
        None => false,
    }
}

/// The first line of this name.
fn line_named<'a>(text: &'a [u8], name: &[u8]) -> Option<&'a [u8]>
    ensures { option_map (λ line. line.now) result ≡ find (is_line_of name.now) (slice_split (λ b. b == 0) text.now) }
{
    text.split(|byte| *byte == 0)
        .find(|line| is_line_of(line, name))
}

/// The value of the variable of this name, in the first line of that name: what stands after the line's first `=`.
pub(crate) fn value_in<'a>(text: &'a [u8], name: &[u8]) -> Option<&'a [u8]>
    ensures { option_map (λ value. value.now) result ≡ value_of text.now name.now }
{
    let line = line_named(text, name)?;
    let (_, value) = cut_at(line, b'=')?;
    Some(value)
}
