//! Texts.

ghost use Rattle.std.specs.Prelude.{◌≡◌, IfOk};
ghost use Rattle.std.specs.List.{list_all};
ghost use Rattle.std.specs.Option.{option_copied};
ghost use Rattle.dhcp_lease.specs.Texts.{is_graphic as is_graphic_byte, text_in, text_of as text_of_value, text_or as text_or_field, trimmed as trimmed_of};

use bd_dev::{Bytes, Memory};
use std::alloc::Global;

/// The bytes without the zeros at their end.
fn trimmed(value: &[u8]) -> &[u8]
    ensures { result.now ≡ trimmed_of value.now }
{
    let mut end = value.len();
    'end: while end > 0 && value[end - 1] == 0 {
        end -= 1;
    }
    &value[..end]
}

fn is_graphic(byte: u8) -> bool
    ensures { result ≡ is_graphic_byte byte }
{
    matches!(byte, 0x21..=0x7e)
}

fn are_graphic(text: &[u8]) -> bool
    ensures { result ≡ list_all is_graphic_byte text.now }
{
    text.iter().all(|byte| is_graphic(*byte))
}

/// The text that some bytes are: without the zeros at their end, one or more bytes of 21 to 7E.
fn text(value: &[u8]) -> Option<&[u8]>
    ensures { option_copied result ≡ text_in value.now }
{
    let text = trimmed(value);
    if !text.is_empty() && are_graphic(text) {
        Some(text)
    } else {
        None
    }
}

/// The text that a value is, where there is one.
pub(crate) fn text_of(value: Option<&[u8]>) -> Option<&[u8]>
    ensures { option_copied result ≡ text_of_value (option_copied value.entry) }
{
    match value {
        Some(value) => text(value),
        None => None,
    }
}

/// The text that a value is, or that of a field where the value is none.
pub(crate) fn text_or<'a>(value: Option<&'a [u8]>, field: &'a [u8]) -> Option<&'a [u8]>
    ensures { option_copied result ≡ text_or_field (option_copied value.entry) field.now }
{
    match text_of(value) {
        Some(text) => Some(text),
        None => text(field),
    }
}

/// A copy of a text, where there is one.
pub(crate) fn kept(alloc: Global, text: Option<&[u8]>) -> Result<Option<Bytes>, Memory>
    ensures { IfOk result (λ copy. copy ≡ option_copied text.entry) }
{
    match text {
        Some(text) => {
            let copy = Bytes::from_slice(alloc, text)?;
            Ok(Some(copy))
        }
        None => Ok(None),
    }
}
