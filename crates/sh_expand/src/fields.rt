//! Fields.

ghost use Rattle.std.specs.Prelude.{◌≡◌, ◌∷◌, [], ◌<◌, ◌≤◌, ◌==◌, not, map, IsErr, IfOk, length};
ghost use Rattle.std.specs.List.{list_any, prefix_len};
ghost use Rattle.sh_expand.specs.Fields.{is_delimiter, is_white, skip_white, past_one, past_delimiter, field, field_length, Splits, HasLonger};
ghost use Rattle.sh_expand.specs.Faults.{IsFieldOf};
ghost use Rattle.sh_expand.specs.declared.fault.ExpandFault.TheVariants as faults;

use crate::fault::ExpandFault;
use crate::item::first;
use bd_dev::{Bytes, Names};
use sh_tree::Pieces;
use std::alloc::Global;

/// The most bytes of a word or a value.
pub const TEXT_LIMIT: usize = 1_048_576;

fn holds(ifs: &[u8], byte: u8) -> bool
    ensures { result ≡ list_any (λ b. b == byte) ifs.now }
{
    ifs.iter().any(|own| *own == byte)
}

fn is_delimiter(ifs: &[u8], piece: (u8, bool)) -> bool
    ensures { result ≡ is_delimiter ifs.now piece }
{
    !piece.1 && holds(ifs, piece.0)
}

fn is_white(ifs: &[u8], piece: (u8, bool)) -> bool
    ensures { result ≡ is_white ifs.now piece }
{
    is_delimiter(ifs, piece) && (piece.0 == b' ' || piece.0 == b'\t' || piece.0 == b'\n')
}

// what follows the white space of IFS at the front
fn skip_white<'a>(ifs: &[u8], pieces: &'a [(u8, bool)]) -> &'a [(u8, bool)]
    ensures { result.now ≡ skip_white ifs.now pieces.now }
{
    let mut rest = pieces;
    'white: loop {
        match first(rest) {
            Some((piece, next)) if is_white(ifs, piece) => rest = next,
            _ => return rest,
        }
    }
}

// what follows one delimiter
fn past_delimiter<'a>(ifs: &[u8], pieces: &'a [(u8, bool)]) -> &'a [(u8, bool)]
    ensures { result.now ≡ past_delimiter ifs.now pieces.now }
{
    let pieces = skip_white(ifs, pieces);
    match first(pieces) {
        Some((piece, rest)) if is_delimiter(ifs, piece) => rest,
        _ => pieces,
    }
}

// how many pieces stand before the first delimiter
fn field_length(ifs: &[u8], pieces: &[(u8, bool)]) -> usize
    ensures { result ≡ field_length ifs.now pieces.now }
{
    for (end, piece) in pieces.iter().enumerate() {
        if is_delimiter(ifs, *piece) {
            return end;
        }
    }
    pieces.len()
}

// the bytes of a field
fn bytes_of(alloc: Global, field: &[(u8, bool)]) -> Result<Bytes, ExpandFault>
    ensures { IsFieldOf TEXT_LIMIT (map (λ x. x.0) field.now) result }
{
    if field.len() > TEXT_LIMIT {
        return Err(ExpandFault::TextLong);
    }
    let mut bytes = Bytes::from_slice(alloc, &[])?;
    for piece in field {
        bytes.push_slice(&[piece.0])?;
    }
    Ok(bytes)
}

/// The fields of a word whose expansion these pieces hold, where IFS has these bytes (POSIX.1-2017, Shell Command
/// Language, 2.6.5). `TextLong` where a field has more than 1,048,576 bytes. Never `Bad`.
pub fn split_fields(alloc: Global, pieces: &Pieces, ifs: &[u8]) -> Result<Names, ExpandFault>
    ensures fields { IfOk result (λ fields. Splits ifs.now pieces.now fields) }
    ensures long { result ≡ Err faults.TextLong → HasLonger ifs.now TEXT_LIMIT pieces.now }
    ensures only { HasLonger ifs.now TEXT_LIMIT pieces.now → IsErr result }
    ensures kind { result ≡ Err faults.Bad → ⊥ }
{
    let mut fields = Names::new(alloc);
    let mut rest = pieces.as_slice();
    'fields: loop {
        let here = skip_white(ifs, rest);
        if here.is_empty() {
            return Ok(fields);
        }
        let (field, after) = here.split_at(field_length(ifs, here));
        fields.push(bytes_of(alloc, field)?)?;
        rest = past_delimiter(ifs, after);
    }
}
