//! Vendors' own options (RFC 3925, section 4).

ghost use Rattle.std.specs.Prelude.{◌≡◌, Some, None, if◌then◌else◌};
ghost use Rattle.std.specs.Option.{option_copied, option_or};
ghost use Rattle.dhcp_lease.specs.Texts.{text_of as text_of_value};
ghost use Rattle.dhcp_lease.specs.Vendor.{block_options, suboption_of, suboptions_in, vendor_options};
ghost use Rattle.dhcp_lease.specs.Steps.{Finds};

use crate::texts::text_of;
use bd_bytes::{Cursor, Short};
use dhcp_msg::counted_bytes;

/// ONIE's enterprise number.
const ONIE: u32 = 42623;

/// What was found before, or else what is found now.
fn or_now<'a>(before: Option<&'a [u8]>, now: Option<&'a [u8]>) -> Option<&'a [u8]>
    ensures { option_copied result ≡ option_or (option_copied before.entry) (option_copied now.entry) }
{
    match before {
        Some(value) => Some(value),
        None => now,
    }
}

/// The value, where it is one of the code that is looked for.
fn if_wanted(value: &[u8], is_wanted: bool) -> Option<&[u8]>
    ensures { option_copied result ≡ (if is_wanted then Some value.now else None) }
{
    if is_wanted { Some(value) } else { None }
}

/// The value of the first sub-option with the code. `Short` where the sub-options don't end with these bytes.
fn first_suboption<'a>(inner: &'a [u8], code: u8) -> Result<Option<&'a [u8]>, Short>
    ensures { Finds code (suboptions_in inner.now) result }
{
    let mut cursor = Cursor::new(inner);
    let mut found = None;
    'each: while cursor.left() > 0 {
        let sub = cursor.take(1).unwrap()[0];
        let value = counted_bytes(&mut cursor)?;
        found = or_now(found, if_wanted(value, sub == code));
    }
    Ok(found)
}

/// The same of what is in a block: a block of another enterprise has none that count.
fn in_block<'a>(enterprise: u32, inner: &'a [u8], code: u8) -> Result<Option<&'a [u8]>, Short>
    ensures { Finds code (block_options enterprise inner.now) result }
{
    if enterprise == ONIE {
        return first_suboption(inner, code);
    }
    Ok(None)
}

/// The same of a value of option 125, over all its blocks.
fn first_in_blocks<'a>(value: &'a [u8], code: u8) -> Result<Option<&'a [u8]>, Short>
    ensures { Finds code (vendor_options value.now) result }
{
    let mut cursor = Cursor::new(value);
    let mut found = None;
    'each: while cursor.left() > 0 {
        let enterprise = cursor.be32()?;
        let inner = counted_bytes(&mut cursor)?;
        found = or_now(found, in_block(enterprise, inner, code)?);
    }
    Ok(found)
}

/// The text of ONIE's sub-option with the code, in a value of option 125.
pub(crate) fn suboption_text(value: Option<&[u8]>, code: u8) -> Option<&[u8]>
    ensures { option_copied result ≡ text_of_value (suboption_of code (option_copied value.entry)) }
{
    match first_in_blocks(value?, code) {
        Ok(found) => text_of(found),
        Err(Short) => None,
    }
}
