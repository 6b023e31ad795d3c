//! The operators.

ghost use Rattle.std.specs.Prelude.{◌≡◌, ◌<◌, IfSome, length};
ghost use Rattle.sh_arith.specs.Operator.{looseness, pair, single, sign, operator_at, operator_in, Operates};

use crate::text::{first, skip};

/// An operator between two operands.
#[derive(Clone, Copy, PartialEq, Eq, Debug)]
pub enum Operator {
    Or,
    And,
    BitOr,
    BitXor,
    BitAnd,
    Equal,
    NotEqual,
    Below,
    AtMost,
    Above,
    AtLeast,
    ShiftLeft,
    ShiftRight,
    Add,
    Subtract,
    Multiply,
    Divide,
    Remainder,
}

/// An operator before its operand: `-`, `+`, `!`, `~`.
#[derive(Clone, Copy, PartialEq, Eq, Debug)]
pub enum Sign {
    Minus,
    Plus,
    Not,
    Complement,
}

impl Operator {
    // C's precedence: from 1 of `*`, which binds tightest, to 10 of `||`
    fn looseness(self) -> u32
        ensures { result ≡ looseness self }
    {
        match self {
            Operator::Or => 10,
            Operator::And => 9,
            Operator::BitOr => 8,
            Operator::BitXor => 7,
            Operator::BitAnd => 6,
            Operator::Equal | Operator::NotEqual => 5,
            Operator::Below | Operator::AtMost | Operator::Above | Operator::AtLeast => 4,
            Operator::ShiftLeft | Operator::ShiftRight => 3,
            Operator::Add | Operator::Subtract => 2,
            Operator::Multiply | Operator::Divide | Operator::Remainder => 1,
        }
    }

    // the operator that two bytes spell
    fn pair(one: u8, two: u8) -> Option<Operator>
        ensures { result ≡ pair one two }
    {
        match (one, two) {
            (b'|', b'|') => Some(Operator::Or),
            (b'&', b'&') => Some(Operator::And),
            (b'=', b'=') => Some(Operator::Equal),
            (b'!', b'=') => Some(Operator::NotEqual),
            (b'<', b'=') => Some(Operator::AtMost),
            (b'>', b'=') => Some(Operator::AtLeast),
            (b'<', b'<') => Some(Operator::ShiftLeft),
            (b'>', b'>') => Some(Operator::ShiftRight),
            _ => None,
        }
    }

    // the operator that one byte spells
    fn single(byte: u8) -> Option<Operator>
        ensures { result ≡ single byte }
    {
        match byte {
            b'|' => Some(Operator::BitOr),
            b'^' => Some(Operator::BitXor),
            b'&' => Some(Operator::BitAnd),
            b'<' => Some(Operator::Below),
            b'>' => Some(Operator::Above),
            b'+' => Some(Operator::Add),
            b'-' => Some(Operator::Subtract),
            b'*' => Some(Operator::Multiply),
            b'/' => Some(Operator::Divide),
            b'%' => Some(Operator::Remainder),
            _ => None,
        }
    }

    // the longest operator at the front of a text after any blanks, and what follows it
    fn at(text: &[u8]) -> Option<(Operator, &[u8])>
        ensures operator { Operates result (operator_at text.now) }
        ensures shorter { IfSome result (λ p. length p.1.now < length text.now) }
    {
        let (one, rest) = first(skip(text))?;
        if let Some((two, rest)) = first(rest)
            && let Some(operator) = Operator::pair(one, two)
        {
            return Some((operator, rest));
        }
        let operator = Operator::single(one)?;
        Some((operator, rest))
    }

    // the same where it binds so loosely
    pub(crate) fn of_level(looseness: u32, text: &[u8]) -> Option<(Operator, &[u8])>
        ensures operator { Operates result (operator_in looseness text.now) }
        ensures shorter { IfSome result (λ p. length p.1.now < length text.now) }
    {
        let (operator, rest) = Operator::at(text)?;
        if operator.looseness() == looseness {
            Some((operator, rest))
        } else {
            None
        }
    }
}

impl Sign {
    // the sign that a byte spells
    pub(crate) fn of(byte: u8) -> Option<Sign>
        ensures { result ≡ sign byte }
    {
        match byte {
            b'-' => Some(Sign::Minus),
            b'+' => Some(Sign::Plus),
            b'!' => Some(Sign::Not),
            b'~' => Some(Sign::Complement),
            _ => None,
        }
    }
}
