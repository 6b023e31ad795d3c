//! What operators make of numbers. `None` is an error.

ghost use Rattle.std.specs.Prelude.{◌≡◌, ◌^◌, ◌*ℤ◌, pos, Some, Option, ℤ, IsTrue, IfSome, ◌<◌};
ghost use Rattle.sh_arith.specs.Number.{truth, is_zero, amount, fitting, strict, needs_right, binary, unary};

use crate::operator::{Operator, Sign};

fn truth(holds: bool) -> i64
    ensures { result ≡ truth holds }
{
    if holds { 1 } else { 0 }
}

pub(crate) fn is_zero(value: i64) -> bool
    ensures { result ≡ is_zero value }
{
    value == 0
}

// by how much a shift goes
fn amount(by: i64) -> Option<u32>
    ensures value { result ≡ amount by }
    ensures small { IfSome result (λ n. n < 64) }
{
    if by < 0 || by > 63 {
        return None;
    }
    Some(by as u32)
}

// the product with 2 to that power, where it fits
fn shift_left(value: i64, by: u32) -> Option<i64>
    requires { by < 64 }
    ensures { result ≡ fitting (value *ℤ pos (2 ^ by)) }
{
    if by < 63 {
        return value.checked_mul(2i64.pow(by));
    }
    match value {
        0 => Some(0),
        -1 => Some(i64::MIN),
        _ => None,
    }
}

impl Operator {
    // the answer where both operands are needed
    fn strict(self, left: i64, right: i64) -> Option<i64>
        ensures { result ≡ strict self left right }
    {
        match self {
            Operator::Or | Operator::And => None,
            Operator::BitOr => Some(left | right),
            Operator::BitXor => Some(left ^ right),
            Operator::BitAnd => Some(left & right),
            Operator::Equal => Some(truth(left == right)),
            Operator::NotEqual => Some(truth(left != right)),
            Operator::Below => Some(truth(left < right)),
            Operator::AtMost => Some(truth(left <= right)),
            Operator::Above => Some(truth(left > right)),
            Operator::AtLeast => Some(truth(left >= right)),
            Operator::ShiftLeft => shift_left(left, amount(right)?),
            Operator::ShiftRight => Some(left >> amount(right)?),
            Operator::Add => left.checked_add(right),
            Operator::Subtract => left.checked_sub(right),
            Operator::Multiply => left.checked_mul(right),
            Operator::Divide => left.checked_div(right),
            Operator::Remainder => left.checked_rem(right),
        }
    }

    // whether the right operand is needed after this left one
    pub(crate) fn needs_right(self, left: i64) -> bool
        ensures { result ≡ needs_right self left }
    {
        match self {
            Operator::Or => is_zero(left),
            Operator::And => !is_zero(left),
            _ => true,
        }
    }

    // the answer, where the right operand is known if it's needed
    pub(crate) fn apply(self, left: i64, right: i64) -> Option<i64>
        ensures { (known : Option ℤ) → (IsTrue (needs_right self left) → known ≡ Some right) → result ≡ binary self left known }
    {
        match self {
            Operator::Or => Some(truth(!is_zero(left) || !is_zero(right))),
            Operator::And => Some(truth(!is_zero(left) && !is_zero(right))),
            _ => self.strict(left, right),
        }
    }
}

impl Sign {
    pub(crate) fn apply(self, value: i64) -> Option<i64>
        ensures { result ≡ unary self value }
    {
        match self {
            Sign::Minus => value.checked_neg(),
            Sign::Plus => Some(value),
            Sign::Not => Some(truth(is_zero(value))),
            Sign::Complement => Some(-1 - value),
        }
    }
}
