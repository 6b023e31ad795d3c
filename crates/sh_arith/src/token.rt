//! What an operand begins with.

ghost use Rattle.std.specs.Prelude.{◌≡◌, length};
ghost use Rattle.sh_arith.specs.Token.{IsToken, IsShorter, token_at};

use crate::constant::{Numeral, constant};
use crate::operator::Sign;
use crate::text::{begins_name, first, skip, split_name};

/// What stands at the front of an operand, and what follows it.
pub(crate) enum Token<'a> {
    Sign(Sign, &'a [u8]),
    Opens(&'a [u8]),
    Constant(Numeral<'a>),
    Name(&'a [u8], &'a [u8]),
    Other,
}

/// The token at the front after any blanks.
pub(crate) fn token_at(text: &[u8]) -> Token<'_>
    ensures token { IsToken result (token_at text.now) }
    ensures shorter { IsShorter result (length text.now) }
{
    let text = skip(text);
    let Some((byte, rest)) = first(text) else {
        return Token::Other;
    };
    if let Some(sign) = Sign::of(byte) {
        return Token::Sign(sign, rest);
    }
    if byte == b'(' {
        return Token::Opens(rest);
    }
    if begins_name(byte) {
        let (name, rest) = split_name(text);
        return Token::Name(name, rest);
    }
    match constant(text) {
        Some(numeral) => Token::Constant(numeral),
        None => Token::Other,
    }
}
