//! Texts as URLs.

ghost use Rattle.std.specs.Prelude.{◌≡◌, ◌++◌, false, true, IfOk, MatchOption};
ghost use Rattle.std.specs.Char.{is_ascii};
ghost use Rattle.std.specs.List.{list_all};
ghost use Rattle.url.specs.Parser.{IsOutOfRoom};
ghost use Rattle.find_fetch.specs.Aim.{is_path, is_printable, path_of, url_of};

use bd_dev::{Bytes, Memory};
use std::alloc::Global;
use url::{ParseError, Url};

/// The most bytes of a path that is asked for over TFTP.
const LONGEST_PATH: usize = 400;

/// Whether each byte of the text is ASCII.
fn are_ascii(text: &[u8]) -> bool
    ensures { result ≡ list_all is_ascii text.now }
{
    text.iter().all(|byte| byte.is_ascii())
}

/// The text as a string, if it is ASCII.
fn ascii_text(text: &[u8]) -> Option<&str>
    ensures { MatchOption result (list_all is_ascii text.now ≡ false) (λ same. (list_all is_ascii text.now ≡ true)
        × (same.now ≡ text.now)) }
{
    if are_ascii(text) {
        str::from_utf8(text).ok()
    } else {
        None
    }
}

/// Whether the parser had no memory, or the URL comes to 4 GB: then the text may be a URL.
fn is_out_of_room(error: ParseError) -> bool
    ensures { result ≡ false → ¬ (IsOutOfRoom error) }
{
    matches!(error, ParseError::OutOfMemory | ParseError::Overflow)
}

/// The URL that the text is, if it is one. Answers `Memory` where there is no memory for it, or it comes to 4 GB.
pub(crate) fn read_url(alloc: Global, text: &[u8]) -> Result<Option<Url>, Memory>
    ensures { IfOk result (λ url. url ≡ url_of text.now) }
{
    let Some(text) = ascii_text(text) else {
        return Ok(None);
    };
    match Url::parse(alloc, text) {
        Ok(url) => Ok(Some(url)),
        Err(error) => {
            if is_out_of_room(error) {
                Err(Memory)
            } else {
                Ok(None)
            }
        }
    }
}

/// What is asked for: the URL's path and query without the first `/`.
pub(crate) fn path_of(alloc: Global, url: &Url) -> Result<Bytes, Memory>
    ensures { IfOk result (λ path. path ≡ path_of url.now) }
{
    let mut whole = Bytes::from_slice(alloc, url.path().as_bytes())?;
    if let Some(query) = url.query() {
        whole.push_slice(b"?")?;
        whole.push_slice(query.as_bytes())?;
    }
    match whole.as_slice().strip_prefix(b"/") {
        Some(path) => Bytes::from_slice(alloc, path),
        None => Ok(whole),
    }
}

/// Whether the byte is printable ASCII.
fn is_printable(byte: u8) -> bool
    ensures { result ≡ is_printable byte }
{
    0x20 <= byte && byte <= 0x7E
}

/// Whether each byte of the text is printable ASCII.
fn are_printable(text: &[u8]) -> bool
    ensures { result ≡ list_all is_printable text.now }
{
    text.iter().all(|byte| is_printable(*byte))
}

/// Whether a server can be asked for the path over TFTP.
#[tactic(auto, unfolding(crate::specs::Aim::is_path))]
pub(crate) fn is_path(path: &[u8]) -> bool
    ensures { result ≡ is_path path.now }
{
    1 <= path.len() && path.len() <= LONGEST_PATH && are_printable(path)
}
