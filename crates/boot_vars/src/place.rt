//! Where the line of a name stands in a text of variables, and the text with another line in its place.

ghost use Rattle.std.specs.Prelude.{◌≡◌, ◌+◌, ◌≤◌, ◌++◌, length, take, drop, nat_le};
ghost use Rattle.boot_vars.specs.Places.{IsPlace};
ghost use Rattle.storage_model.specs.Variables.{IsText, line_of};

use crate::find::{cut_at, is_line_of};

/// Where a line stands in a text.
#[derive(Clone, Copy)]
pub(crate) struct Place {
    /// Its first byte.
    pub at: usize,
    /// Its bytes, its end with them: 0 where there is no such line.
    pub size: usize,
}

/// Where the line of this name stands in a text of variables: at the text's end, of no bytes, where there is none.
pub(crate) fn place_of(text: &[u8], name: &[u8]) -> Place
    requires { IsText text.now }
    ensures place { IsPlace text.now name.now result.at result.size }
    ensures within { result.at + result.size ≤ length text.now }
{
    let mut at = 0;
    'lines: while at < text.len() {
        let (_, rest) = text.split_at(at);
        let Some((line, _)) = cut_at(rest, 0) else {
            break;
        };
        let size = line.len() + 1;
        if is_line_of(line, name) {
            return Place { at, size };
        }
        at += size;
    }
    Place { at, size: 0 }
}

/// Whether a variable's line fits beside the other lines of a text, which have so many bytes: 8,180 are the most.
pub(crate) fn has_room(others: usize, name: &[u8], value: &[u8]) -> bool
    requires { others ≤ 8180 }
    ensures { result ≡ nat_le (others + length name.now + length value.now + 2) 8180 }
{
    let room = 8180 - others;
    name.len() <= room && value.len() <= room - name.len() && 2 <= room - name.len() - value.len()
}

/// Puts a part behind the first `filled` bytes, and gives how many there are then.
fn append(out: &mut [u8; 8192], filled: usize, part: &[u8]) -> usize
    requires room { filled + length part.now ≤ 8192 }
    ensures size { result ≡ filled + length part.now }
    ensures bytes { take result out.new ≡ take filled out.old ++ part.now }
{
    let end = filled + part.len();
    out[filled..end].copy_from_slice(part);
    end
}

/// Writes the text with the line of a variable in this place, and gives its length in bytes.
pub(crate) fn write_with(
    text: &[u8],
    place: Place,
    name: &[u8],
    value: &[u8],
    out: &mut [u8; 8192],
) -> usize
    requires within { place.at + place.size ≤ length text.now }
    requires room { length text.now + length name.now + length value.now + 2 ≤ 8192 + place.size }
    ensures size { result + place.size ≡ length text.now + length name.now + length value.now + 2 }
    ensures bytes { take result out.new ≡ take place.at text.now
        ++ (line_of (record { name = name.now; value = value.now }) ++ drop (place.at + place.size) text.now) }
{
    let (front, rest) = text.split_at(place.at);
    let (_, back) = rest.split_at(place.size);
    let filled = append(out, 0, front);
    let filled = append(out, filled, name);
    let filled = append(out, filled, b"=");
    let filled = append(out, filled, value);
    let filled = append(out, filled, b"\0");
    append(out, filled, back)
}

/// Writes the text without what stands in this place, and gives its length in bytes.
pub(crate) fn write_without(text: &[u8], place: Place, out: &mut [u8; 8192]) -> usize
    requires within { place.at + place.size ≤ length text.now }
    requires room { length text.now ≤ 8192 }
    ensures size { result + place.size ≡ length text.now }
    ensures bytes { take result out.new ≡ take place.at text.now ++ drop (place.at + place.size) text.now }
{
    let (front, rest) = text.split_at(place.at);
    let (_, back) = rest.split_at(place.size);
    let filled = append(out, 0, front);
    append(out, filled, back)
}
