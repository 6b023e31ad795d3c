//! The lines of variables, and the first that is none.

ghost use Rattle.std.specs.Prelude.{◌≡◌, ◌<◌, ◌≤◌, ℕ, length, Some, IfNone, IfSome};
ghost use Rattle.std.specs.List.{list_all};
ghost use Rattle.boot_vars.specs.Lines.{next_line};
ghost use Rattle.storage_model.specs.Variables.{IsBadLine, IsText, is_name, is_name_byte, is_value};

use crate::find::{cut_at, value_in};

/// Whether a byte is a letter, a digit or `_`.
fn is_name_byte(byte: u8) -> bool
    ensures { result ≡ is_name_byte byte }
{
    byte.is_ascii_alphanumeric() || byte == b'_'
}

/// Whether each byte is a letter, a digit or `_`.
fn are_name_bytes(name: &[u8]) -> bool
    ensures { result ≡ list_all is_name_byte name.now }
{
    name.iter().all(|byte| is_name_byte(*byte))
}

/// Whether these are 1 to 64 letters, digits or `_`.
#[tactic(auto, unfolding(storage_model::specs::Variables::is_name))]
pub(crate) fn is_name(name: &[u8]) -> bool
    ensures { result ≡ is_name name.now }
{
    1 <= name.len() && name.len() <= 64 && are_name_bytes(name)
}

/// Whether each byte is printable ASCII.
#[tactic(auto, unfolding(storage_model::specs::Variables::is_value))]
pub(crate) fn is_value(value: &[u8]) -> bool
    ensures { result ≡ is_value value.now }
{
    value.iter().all(|byte| 0x20 <= *byte && *byte <= 0x7E)
}

/// The length in bytes of the line at the front of `rest`, with its zero byte: None where there stands none of a
/// variable whose name has no line in `before`.
#[tactic(auto, unfolding(crate::specs::Lines::next_line, crate::specs::Lines::is_next_line))]
fn next_line(before: &[u8], rest: &[u8]) -> Option<usize>
    ensures line { result ≡ next_line before.now rest.now }
    ensures some { IfSome result (λ n. 0 < n) }
    ensures within { IfSome result (λ n. n ≤ length rest.now) }
{
    let (line, _) = cut_at(rest, 0)?;
    let (name, value) = cut_at(line, b'=')?;
    if is_name(name) && is_value(value) && value_in(before, name).is_none() {
        Some(line.len() + 1)
    } else {
        None
    }
}

/// Where the first wrong line begins, from 0. None where the text is that of some variables.
pub(crate) fn first_bad_line(text: &[u8]) -> Option<usize>
    ensures good { IfNone result (IsText text.now) }
    ensures bad { IfSome result (λ at. IsBadLine text.now at) }
    ensures only { (at : ℕ) → IsBadLine text.now at → result ≡ Some at }
{
    let mut at = 0;
    'lines: while at < text.len() {
        let (before, rest) = text.split_at(at);
        match next_line(before, rest) {
            Some(length) => at += length,
            None => return Some(at),
        }
    }
    None
}
