//! Options in a field of a message (RFC 2132, section 2).

ghost use Rattle.std.specs.Prelude.{◌≡◌, ◌<◌, ◌+◌, ◌^◌, length, OnOk, IfSome};
ghost use Rattle.bd_bytes.specs.Cursor.{passed};
ghost use Rattle.dhcp_msg.specs.Adding.{added_all, counted, one};
ghost use Rattle.dhcp_msg.specs.Reading.{options_in};
ghost use Rattle.dhcp_msg.specs.Steps.{code_at, GivesValue, Reads};

use crate::fault::DhcpFault;
use crate::options::Options;
use bd_bytes::{Cursor, Short};
use bd_dev::Memory;

/// A byte that fills (RFC 2132, section 3.1).
const PAD: u8 = 0;

/// A byte that ends the options of a field (RFC 2132, section 3.2).
pub(crate) const END: u8 = 255;

/// The code of the option overload (RFC 2132, section 9.3).
pub(crate) const OVERLOAD: u8 = 52;

/// The code that stands next. `None` at the end of the options or of the field.
fn next_code(cursor: &mut Cursor) -> Option<u8>
    ensures code { result ≡ code_at cursor.old.left }
    ensures moved { IfSome result (λ code. (0 < length cursor.old.left) × (cursor.new ≡ passed 1 cursor.old)) }
{
    let code = cursor.take(1).ok()?[0];
    if code == END { None } else { Some(code) }
}

/// The bytes that stand behind their number, which is one byte. `Short` exactly where there are fewer, and the cursor
/// then stands anywhere. Options and the parts of some of their values are kept so (RFC 2132, section 2; RFC 3925,
/// section 4).
pub fn counted_bytes<'a>(cursor: &mut Cursor<'a>) -> Result<&'a [u8], Short>
    ensures { GivesValue cursor.old result cursor.new }
{
    let size = cursor.take(1)?[0];
    cursor.take(size as usize)
}

/// Adds the option to those before, or leaves it out where it is an option overload that counts for nothing.
fn count(options: &mut Options, is_overloaded: bool, code: u8, value: &[u8]) -> Result<(), Memory>
    ensures { OnOk result (options.new ≡ added_all (counted is_overloaded (one code value.now)) options.old) }
{
    if is_overloaded && code == OVERLOAD {
        return Ok(());
    }
    options.add(code, value)
}

/// Adds the options of a field, whose first byte is that at a place of the message, to those before. In a field that is
/// overloaded the option overload itself counts for nothing.
pub(crate) fn read_field(
    options: &mut Options,
    is_overloaded: bool,
    field: &[u8],
    place: usize,
) -> Result<(), DhcpFault>
    requires { place + length field.now < 2 ^ 64 }
    ensures { Reads is_overloaded (options_in place field.now) options.old result options.new }
{
    let mut cursor = Cursor::new(field);
    while let Some(code) = next_code(&mut cursor) {
        if code == PAD {
            continue;
        }
        let at = place + cursor.place() - 1;
        let Ok(value) = counted_bytes(&mut cursor) else {
            return Err(DhcpFault::Cut { at: at as u64 });
        };
        count(options, is_overloaded, code, value)?;
    }
    Ok(())
}
