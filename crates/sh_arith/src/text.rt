//! Texts, taken apart from the front.

ghost use Rattle.std.specs.Prelude.{◌≡◌, ◌∷◌, [], ◌<◌, ◌≤◌, MatchOption, IfSome, length, drop};
ghost use Rattle.std.specs.List.{take_while, prefix_len};
ghost use Rattle.sh_arith.specs.Text.{is_blank, is_name_byte, begins_name, BeginsName, skip, after, Follows};

/// The first byte and what follows it.
pub(crate) fn first(text: &[u8]) -> Option<(u8, &[u8])>
    ensures { MatchOption result (text.now ≡ []) (λ p. text.now ≡ p.0 ∷ p.1.now) }
{
    match text {
        [] => None,
        [byte, rest @ ..] => Some((*byte, rest)),
    }
}

fn is_blank(byte: u8) -> bool
    ensures { result ≡ is_blank byte }
{
    byte == b' ' || byte == b'\t' || byte == b'\n'
}

pub(crate) fn is_name_byte(byte: u8) -> bool
    ensures { result ≡ is_name_byte byte }
{
    byte.is_ascii_alphanumeric() || byte == b'_'
}

pub(crate) fn begins_name(byte: u8) -> bool
    ensures { result ≡ begins_name byte }
{
    byte.is_ascii_alphabetic() || byte == b'_'
}

/// What follows the blanks at the front.
pub(crate) fn skip(text: &[u8]) -> &[u8]
    ensures skipped { result.now ≡ skip text.now }
    ensures shorter { length result.now ≤ length text.now }
{
    let mut rest = text;
    'blanks: loop {
        match first(rest) {
            Some((byte, next)) if is_blank(byte) => rest = next,
            _ => return rest,
        }
    }
}

/// What follows this byte, where it stands at the front after any blanks.
pub(crate) fn after(byte: u8, text: &[u8]) -> Option<&[u8]>
    ensures follows { Follows result (after byte text.now) }
    ensures shorter { IfSome result (λ rest. length rest.now < length text.now) }
{
    let (found, rest) = first(skip(text))?;
    if found == byte { Some(rest) } else { None }
}

/// How many bytes of names stand at the front.
fn name_length(text: &[u8]) -> usize
    ensures { result ≡ prefix_len is_name_byte text.now }
{
    for (end, byte) in text.iter().enumerate() {
        if !is_name_byte(*byte) {
            return end;
        }
    }
    text.len()
}

/// The bytes of names at the front, and what follows them.
pub(crate) fn split_name(text: &[u8]) -> (&[u8], &[u8])
    ensures name { result.0.now ≡ take_while is_name_byte text.now }
    ensures rest { result.1.now ≡ drop (prefix_len is_name_byte text.now) text.now }
    ensures shorter { BeginsName text.now → length result.1.now < length text.now }
{
    text.split_at(name_length(text))
}
