//! Names and their values.

ghost use Rattle.std.specs.Prelude.{◌≡◌, Option, neg_ℤ};
ghost use Rattle.sh_arith.specs.Text.{Follows};
ghost use Rattle.sh_arith.specs.Names.{lookup, signed, written, named};
ghost use Rattle.sh_arith.specs.Constant.{constant};

use crate::constant::{constant, negative, positive};
use crate::text::first;
use bd_dev::Bytes;

/// The value of a name: that of the first pair with this name. `None` where there is none.
pub fn lookup<'a>(variables: &'a [(Bytes, Bytes)], name: &[u8]) -> Option<&'a [u8]>
    ensures { Follows result (lookup name.now variables.now) }
{
    for (key, value) in variables {
        if key.as_slice() == name {
            return Some(value.as_slice());
        }
    }
    None
}

// the number of a constant that is the whole text
fn plus(text: &[u8]) -> Option<i64>
    ensures { result ≡ signed (λ x. x) (constant text.now) }
{
    let numeral = constant(text)?;
    if !numeral.rest.is_empty() {
        return None;
    }
    positive(numeral.number)
}

// the number below zero of a constant that is the whole text
fn minus(text: &[u8]) -> Option<i64>
    ensures { result ≡ signed neg_ℤ (constant text.now) }
{
    let numeral = constant(text)?;
    if !numeral.rest.is_empty() {
        return None;
    }
    negative(numeral.number)
}

// the number that a name's value writes: an optional sign and one constant
fn written(text: &[u8]) -> Option<i64>
    ensures { result ≡ written text.now }
{
    let Some((byte, rest)) = first(text) else {
        return Some(0);
    };
    match byte {
        b'-' => minus(rest),
        b'+' => plus(rest),
        _ => plus(text),
    }
}

/// What a name stands for: 0 where it has no value.
pub(crate) fn named(variables: &[(Bytes, Bytes)], name: &[u8]) -> Option<i64>
    ensures { result ≡ named variables.now name.now }
{
    match lookup(variables, name) {
        None => Some(0),
        Some(text) => written(text),
    }
}
