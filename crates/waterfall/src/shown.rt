//! How URLs are shown.

ghost use Rattle.std.specs.Prelude.{◌≡◌, false, true, IfOk, MatchOption};
ghost use Rattle.std.specs.Char.{is_ascii};
ghost use Rattle.std.specs.List.{list_all};
ghost use Rattle.url.specs.Parser.{IsOutOfRoom};
ghost use Rattle.waterfall.specs.Shown.{shown_url, url_of};

use bd_dev::{Bytes, Memory};
use std::alloc::Global;
use url::{ParseError, Url};

/// Whether each byte of the text is ASCII.
fn are_ascii(text: &[u8]) -> bool
    ensures { result ≡ list_all is_ascii text.now }
{
    text.iter().all(|byte| byte.is_ascii())
}

/// The text as a string, if it is ASCII.
fn ascii_text(text: &[u8]) -> Option<&str>
    ensures { MatchOption result (list_all is_ascii text.now ≡ false) (λ same. (list_all is_ascii text.now ≡ true)
        × (same.now ≡ text.now)) }
{
    if are_ascii(text) {
        str::from_utf8(text).ok()
    } else {
        None
    }
}

/// Whether the parser had no memory, or the URL comes to 4 GB: then the text may be a URL.
fn is_out_of_room(error: ParseError) -> bool
    ensures { result ≡ false → ¬ (IsOutOfRoom error) }
{
    matches!(error, ParseError::OutOfMemory | ParseError::Overflow)
}

/// The URL that the text is, if it is one. Answers `Memory` where there is no memory for it, or it comes to 4 GB.
fn read_url(alloc: Global, text: &[u8]) -> Result<Option<Url>, Memory>
    ensures { IfOk result (λ url. url ≡ url_of text.now) }
{
    let Some(text) = ascii_text(text) else {
        return Ok(None);
    };
    match Url::parse(alloc, text) {
        Ok(url) => Ok(Some(url)),
        Err(error) => {
            if is_out_of_room(error) {
                Err(Memory)
            } else {
                Ok(None)
            }
        }
    }
}

/// How a text is shown that is to be a URL: as the URL Standard writes it, or as it is where it is none.
pub(crate) fn shown_url(alloc: Global, text: &[u8]) -> Result<Bytes, Memory>
    ensures { IfOk result (λ shown. shown ≡ shown_url text.now) }
{
    match read_url(alloc, text)? {
        Some(url) => Bytes::from_slice(alloc, url.as_str().as_bytes()),
        None => Bytes::from_slice(alloc, text),
    }
}
