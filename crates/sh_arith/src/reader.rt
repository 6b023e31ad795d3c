//! Expressions, read and evaluated in one pass.

ghost use Rattle.std.specs.Prelude.{◌≡◌, ◌≤◌, ◌↔◌, ℤ, Ok, IsErr, Bool, ◌&&◌, not, if◌then◌else◌};
ghost use Rattle.sh_arith.specs.Number.{is_zero, needs_right, binary, unary, fitting};
ghost use Rattle.sh_arith.specs.Names.{named};
ghost use Rattle.sh_arith.specs.Grammar.{Operand, Level, Conditional, IsValue};
ghost use Rattle.sh_arith.specs.Reading.{Comes, Answers};

use crate::constant::positive;
use crate::names::named;
use crate::number::is_zero;
use crate::operator::{Operator, Sign};
use crate::text::{after, skip};
use crate::token::{Token, token_at};
use bd_dev::Bytes;

/// The text is no expression, an operand stands too deep, or what is needed has no value.
#[derive(Clone, Copy, Debug, PartialEq, Eq)]
pub struct Bad;

/// What was read: its value where that is needed, how deep operands stand in it, and what follows it.
#[derive(Clone, Copy)]
struct Found<'a> {
    value: i64,
    height: u32,
    rest: &'a [u8],
}

// what an expression comes to where that is needed
fn needed_value(needed: bool, value: Option<i64>) -> Result<i64, Bad>
    ensures { Comes needed value result }
{
    if !needed {
        return Ok(0);
    }
    match value {
        None => Err(Bad),
        Some(value) => Ok(value),
    }
}

fn both(a: bool, b: bool) -> bool
    ensures { result ≡ (a && b) }
{
    a && b
}

#[cycle(expression)]
fn operand<'a>(
    variables: &[(Bytes, Bytes)],
    text: &'a [u8],
    depth: u32,
    needed: bool,
) -> Result<Found<'a>, Bad>
    ensures { Answers Operand variables.now depth needed text.now result }
{
    match token_at(text) {
        Token::Constant(numeral) => {
            let value = needed_value(needed, positive(numeral.number))?;
            Ok(Found {
                value,
                height: 0,
                rest: numeral.rest,
            })
        }
        Token::Name(name, rest) => {
            let value = needed_value(needed, named(variables, name))?;
            Ok(Found {
                value,
                height: 0,
                rest,
            })
        }
        Token::Opens(rest) => {
            if depth == 0 {
                return Err(Bad);
            }
            let inner = conditional(variables, rest, depth - 1, needed)?;
            let Some(rest) = after(b')', inner.rest) else {
                return Err(Bad);
            };
            Ok(Found {
                value: inner.value,
                height: inner.height + 1,
                rest,
            })
        }
        Token::Sign(sign, rest) => {
            if depth == 0 {
                return Err(Bad);
            }
            let inner = operand(variables, rest, depth - 1, needed)?;
            let value = needed_value(needed, sign.apply(inner.value))?;
            Ok(Found {
                value,
                height: inner.height + 1,
                rest: inner.rest,
            })
        }
        Token::Other => Err(Bad),
    }
}

#[cycle(expression)]
fn level<'a>(
    variables: &[(Bytes, Bytes)],
    text: &'a [u8],
    depth: u32,
    needed: bool,
    looseness: u32,
) -> Result<Found<'a>, Bad>
    requires { looseness ≤ 10 }
    ensures { Answers (Level looseness) variables.now depth needed text.now result }
{
    if looseness == 0 {
        return operand(variables, text, depth, needed);
    }
    let mut left = level(variables, text, depth, needed, looseness - 1)?;
    'chain: loop {
        let Some((operator, rest)) = Operator::of_level(looseness, left.rest) else {
            return Ok(left);
        };
        let needs = both(needed, operator.needs_right(left.value));
        let right = level(variables, rest, depth, needs, looseness - 1)?;
        let value = needed_value(needed, operator.apply(left.value, right.value))?;
        left = Found {
            value,
            height: left.height.max(right.height),
            rest: right.rest,
        };
    }
}

fn chosen(first: bool, one: i64, other: i64) -> i64
    ensures { result ≡ (if first then one else other) }
{
    if first { one } else { other }
}

#[cycle(expression)]
fn conditional<'a>(
    variables: &[(Bytes, Bytes)],
    text: &'a [u8],
    depth: u32,
    needed: bool,
) -> Result<Found<'a>, Bad>
    ensures { Answers Conditional variables.now depth needed text.now result }
{
    let test = level(variables, text, depth, needed, 10)?;
    let Some(rest) = after(b'?', test.rest) else {
        return Ok(test);
    };
    if test.height >= depth {
        return Err(Bad);
    }
    let fails = is_zero(test.value);
    let yes = conditional(variables, rest, depth - 1, both(needed, !fails))?;
    let Some(rest) = after(b':', yes.rest) else {
        return Err(Bad);
    };
    let no = conditional(variables, rest, depth - 1, both(needed, fails))?;
    Ok(Found {
        value: chosen(fails, no.value, yes.value),
        height: 1 + test.height.max(yes.height.max(no.height)),
        rest: no.rest,
    })
}

/// The value of an expression, in which names stand for what these variables hold. `Bad` where the text is no
/// expression, where an operand stands within more than 64 parentheses, unary operators and `?:` together, or where
/// what is needed overflows, divides by zero, shifts by less than 0 or more than 63, or names a value that is no
/// number.
pub fn evaluate(variables: &[(Bytes, Bytes)], text: &[u8]) -> Result<i64, Bad>
    ensures value { (v : ℤ) → (result ≡ Ok v) ↔ IsValue variables.now text.now v }
    ensures bad { IsErr result ↔ ((v : ℤ) → IsValue variables.now text.now v → ⊥) }
{
    let found = conditional(variables, text, 64, true)?;
    if skip(found.rest).is_empty() {
        Ok(found.value)
    } else {
        Err(Bad)
    }
}
