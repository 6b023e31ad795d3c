//! What the words ask for.

ghost use Rattle.std.specs.Prelude.{◌≡◌, IfSome, IsSomeAnd, ℕ, List, map, string_bytes, codes, ◌++◌};
ghost use Rattle.bd_text.specs.Digits.{SpellsHex};
ghost use Rattle.onie_cli.specs.Words.{asked, command_of};

/// A command, by the words after the program's name.
#[derive(Clone, Copy)]
pub(crate) enum Command<'a> {
    /// `status`: print the table and what boots.
    Status,
    /// `discover`: list the candidates on local media.
    Discover,
    /// `eeprom`: print the fields of the EEPROM.
    Eeprom,
    /// `eeprom set CODE TEXT`: change one field.
    EepromSet { code: u8, text: &'a [u8] },
    /// `set NAME VALUE`: give a boot variable a value.
    Set { name: &'a [u8], value: &'a [u8] },
    /// `unset NAME`: take out a boot variable.
    Unset { name: &'a [u8] },
}

/// The code that `0x` and two hexadecimal digits write, in either case.
fn code_of(word: &[u8]) -> Option<u8>
    ensures found { IfSome result (λ code. (digits : List ℕ) × SpellsHex 2 code digits × (word.now ≡ codes "0x" ++ digits)) }
    ensures only { (code : ℕ) (digits : List ℕ) → SpellsHex 2 code digits → word.now ≡ codes "0x" ++ digits → IsSomeAnd result (λ c. c ≡ code) }
{
    let [b'0', b'x', high, low] = word else {
        return None;
    };
    let high = char::from(*high).to_digit(16)?;
    let low = char::from(*low).to_digit(16)?;
    Some((high * 16 + low) as u8)
}

/// What the words ask for, or none where they are no command.
pub(crate) fn read_words(words: &[String]) -> Option<Command<'_>>
    ensures { asked (map string_bytes words.now) ≡ command_of result }
{
    match words {
        [word] => match word.as_str() {
            "status" => Some(Command::Status),
            "discover" => Some(Command::Discover),
            "eeprom" => Some(Command::Eeprom),
            _ => None,
        },
        [first, name] => {
            if first.as_str() != "unset" {
                return None;
            }
            let name = name.as_bytes();
            Some(Command::Unset { name })
        }
        [first, name, value] => {
            if first.as_str() != "set" {
                return None;
            }
            let name = name.as_bytes();
            let value = value.as_bytes();
            Some(Command::Set { name, value })
        }
        [first, second, code, text] => {
            if first.as_str() != "eeprom" || second.as_str() != "set" {
                return None;
            }
            let code = code_of(code.as_bytes())?;
            let text = text.as_bytes();
            Some(Command::EepromSet { code, text })
        }
        _ => None,
    }
}
