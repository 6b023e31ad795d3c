//! Numbers in digits, read and printed.

ghost use Rattle.std.specs.Prelude.{◌≡◌, ◌+◌, ◌^◌, ◌<◌, ◌≤◌, [], ◌∷◌, ◌++◌, length, slice_index};
ghost use Rattle.std.specs.Option.{SomeIff};
ghost use Rattle.std.specs.Str.Parse.{AllDigits, digits_value};
ghost use Rattle.bd_text.specs.Digits.{digits_in, numeral, shortest};

use arrayvec::ArrayString;

/// Which letters are printed as digits.
#[derive(Clone, Copy)]
pub(crate) enum Case {
    Lower,
    Upper,
}

impl Case {
    fn digit(self, value: u64) -> u8
        requires { value < 16 }
        ensures digit { result ≡ slice_index (digits_in self) value }
        ensures ascii { result < 128 }
    {
        let digits = match self {
            Case::Lower => b"0123456789abcdef",
            Case::Upper => b"0123456789ABCDEF",
        };
        digits[value as usize]
    }
}

/// The number that these digits of a base write, letters in either case. `None` where one is no
/// such digit.
pub(crate) fn number(digits: &[u8], base: u32) -> Option<u64>
    requires low { 2 ≤ base }
    requires high { base ≤ 16 }
    requires short { length digits.now ≤ 12 }
    ensures { SomeIff result (AllDigits base digits.now) (digits_value base digits.now) }
{
    let mut number = 0;
    for digit in digits {
        let value = char::from(*digit).to_digit(base)?;
        number = number * u64::from(base) + u64::from(value);
    }
    Some(number)
}

/// Appends an ASCII character.
pub(crate) fn push_ascii(text: &mut ArrayString<40>, letter: u8)
    requires ascii { letter < 128 }
    requires room { length text.old.bytes + 1 ≤ 40 }
    ensures bytes { text.new.bytes ≡ text.old.bytes ++ letter ∷ [] }
    ensures len { length text.new.bytes ≡ length text.old.bytes + 1 }
{
    text.push(char::from(letter));
}

/// Appends the last `count` digits of a number in a base.
pub(crate) fn push_numeral(
    text: &mut ArrayString<40>,
    letters: Case,
    base: u64,
    count: usize,
    number: u64,
)
    requires low { 2 ≤ base }
    requires high { base ≤ 16 }
    requires room { length text.old.bytes + count ≤ 40 }
    ensures bytes { text.new.bytes ≡ text.old.bytes ++ numeral letters base count number }
    ensures len { length text.new.bytes ≡ length text.old.bytes + count }
{
    if count > 0 {
        push_numeral(text, letters, base, count - 1, number / base);
        push_ascii(text, letters.digit(number % base));
    }
}

/// Appends a number without leading zeros in a base, in which it has at most so many digits.
pub(crate) fn push_shortest(
    text: &mut ArrayString<40>,
    letters: Case,
    base: u64,
    most: usize,
    number: u64,
)
    requires low { 2 ≤ base }
    requires high { base ≤ 16 }
    requires some { 0 < most }
    requires fits { number < base ^ most }
    requires room { length text.old.bytes + most ≤ 40 }
    ensures bytes { text.new.bytes ≡ text.old.bytes ++ shortest letters base number }
    ensures len { length text.new.bytes ≤ length text.old.bytes + most }
{
    if number >= base {
        push_shortest(text, letters, base, most - 1, number / base);
    }
    push_ascii(text, letters.digit(number % base));
}
