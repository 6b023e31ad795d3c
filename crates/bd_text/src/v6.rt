//! IPv6 addresses.

ghost use Rattle.std.specs.Prelude.{◌≡◌, ℕ, ◌+◌, ◌*◌, ◌<◌, ◌≤◌, List, ◌++◌, ◌-◌, length, replicate, Some, IfSome, IfNone};
ghost use Rattle.std.specs.Option.{IsSomeAnd};
ghost use Rattle.bd_text.specs.Digits.{AreBytes};
ghost use Rattle.bd_text.specs.Gap.{IsFirstGap, IsGap};
ghost use Rattle.bd_text.specs.V6.{IsZeroRun, PrintsGroups, PrintsV6, SpellsGroups, SpellsInFull, SpellsV6, SpellsWithGap, groups_text, v6_groups};

use crate::digits::{Case, push_ascii, push_shortest};
use crate::parts::{Form, listed, push_mark};
use arrayvec::ArrayString;
use byteorder::{BigEndian, ByteOrder};

/// An IPv6 address.
#[derive(Clone, Copy, Debug, Default, PartialEq, Eq)]
pub struct V6 {
    /// The bytes in the order in which they are sent.
    pub bytes: [u8; 16],
}

/// How many zero groups in a row `::` stands for at least in a printed text (RFC 5952, section
/// 4.2.2).
const LEAST_RUN: usize = 2;

/// A run of zero groups.
#[derive(Clone, Copy)]
struct Run {
    start: usize,
    count: usize,
}

/// Where the first `::` stands.
fn first_gap(text: &[u8]) -> Option<usize>
    ensures found { IfSome result (λ place. IsFirstGap text.now place) }
    ensures none { IfNone result ((place : ℕ) → ¬ IsGap text.now place) }
{
    for place in 1..text.len() {
        if text[place - 1] == b':' && text[place] == b':' {
            return Some(place - 1);
        }
    }
    None
}

/// The eight groups, with zeros between those before and those after a gap.
fn filled(before: &[u16], after: &[u16]) -> [u16; 8]
    requires { length before.now + length after.now ≤ 7 }
    ensures { result
        ≡ before.now ++ (replicate (8 - (length before.now + length after.now)) 0 ++ after.now) }
{
    let mut groups = [0; 8];
    groups[..before.len()].copy_from_slice(before);
    groups[8 - after.len()..].copy_from_slice(after);
    groups
}

/// The groups of a text without `::`.
fn in_full(text: &[u8]) -> Option<[u16; 8]>
    ensures size { IfSome result (λ r. length r ≡ 8) }
    ensures sound { IfSome result (λ r. SpellsInFull r text.now) }
    ensures only { (gs : List ℕ) → length gs ≡ 8 → SpellsInFull gs text.now
        → IsSomeAnd result (λ r. r ≡ gs) }
{
    let groups = listed(text, b':', Form::Group)?;
    let groups = groups.into_inner().ok()?;
    Some(groups)
}

/// The groups of a text whose first `::` stands at the place.
fn round_gap(text: &[u8], place: usize) -> Option<[u16; 8]>
    requires { IsFirstGap text.now place }
    ensures size { IfSome result (λ r. length r ≡ 8) }
    ensures sound { IfSome result (λ r. SpellsWithGap r text.now) }
    ensures only { (gs : List ℕ) → length gs ≡ 8 → SpellsWithGap gs text.now
        → IsSomeAnd result (λ r. r ≡ gs) }
{
    let before = listed(&text[..place], b':', Form::Group)?;
    let after = listed(&text[place + 2..], b':', Form::Group)?;
    if before.len() + after.len() > 7 {
        return None;
    }
    Some(filled(&before, &after))
}

/// The eight groups that the text spells.
fn groups(text: &[u8]) -> Option<[u16; 8]>
    ensures size { IfSome result (λ r. length r ≡ 8) }
    ensures sound { IfSome result (λ r. SpellsGroups r text.now) }
    ensures only { (gs : List ℕ) → length gs ≡ 8 → SpellsGroups gs text.now
        → IsSomeAnd result (λ r. r ≡ gs) }
{
    match first_gap(text) {
        None => in_full(text),
        Some(place) => round_gap(text, place),
    }
}

fn groups_of(bytes: &[u8]) -> [u16; 8]
    requires { length bytes.now ≡ 16 }
    ensures { result ≡ v6_groups bytes.now }
{
    let mut groups = [0; 8];
    BigEndian::read_u16_into(bytes, &mut groups);
    groups
}

fn bytes_of(groups: &[u16]) -> [u8; 16]
    requires { length groups.now ≡ 8 }
    ensures bytes { AreBytes 16 result }
    ensures groups { v6_groups result ≡ groups.now }
{
    let mut bytes = [0; 16];
    BigEndian::write_u16_into(groups, &mut bytes);
    bytes
}

/// How many groups from a place on are zero.
fn zeros_from(groups: &[u16], start: usize) -> usize
    requires { start ≤ length groups.now }
    ensures zeros { IsZeroRun groups.now start result }
    ensures most { (n : ℕ) → IsZeroRun groups.now start n → n ≤ result }
{
    let mut end = start;
    while end < groups.len() && groups[end] == 0 {
        end += 1;
    }
    end - start
}

/// The longest run of zero groups, and of runs as long the first.
fn longest_run(groups: &[u16]) -> Run
    ensures zeros { IsZeroRun groups.now result.start result.count }
    ensures longest { (s n : ℕ) → IsZeroRun groups.now s n → n ≤ result.count }
    ensures first { (s : ℕ) → IsZeroRun groups.now s result.count → result.start ≤ s }
{
    let mut longest = Run { start: 0, count: 0 };
    for start in 0..groups.len() {
        let count = zeros_from(groups, start);
        if count > longest.count {
            longest = Run { start, count };
        }
    }
    longest
}

/// Appends groups with `:` between each two.
fn push_groups(text: &mut ArrayString<40>, groups: &[u16])
    requires { length text.old.bytes + 5 * length groups.now ≤ 40 }
    ensures bytes { text.new.bytes ≡ text.old.bytes ++ groups_text groups.now }
    ensures len { length text.new.bytes ≤ length text.old.bytes + 5 * length groups.now }
{
    for (place, group) in groups.iter().enumerate() {
        push_mark(text, place, b':');
        push_shortest(text, Case::Lower, 16, 4, u64::from(*group));
    }
}

fn printed(groups: &[u16]) -> ArrayString<40>
    requires { length groups.now ≡ 8 }
    ensures { PrintsGroups groups.now result.bytes }
{
    let run = longest_run(groups);
    let mut text = ArrayString::new();
    if run.count < LEAST_RUN {
        push_groups(&mut text, groups);
        return text;
    }
    push_groups(&mut text, &groups[..run.start]);
    push_ascii(&mut text, b':');
    push_ascii(&mut text, b':');
    push_groups(&mut text, &groups[run.start + run.count..]);
    text
}

fn text_of(bytes: &[u8]) -> ArrayString<40>
    requires { length bytes.now ≡ 16 }
    ensures printed { PrintsV6 bytes.now result.bytes }
    ensures one { (other : List ℕ) → PrintsV6 bytes.now other → other ≡ result.bytes }
    ensures spelled { SpellsV6 bytes.now result.bytes }
{
    printed(&groups_of(bytes))
}

impl V6 {
    /// Reads eight groups of one to four hexadecimal digits with `:` between each two, or fewer
    /// with one `::` in place of at least one zero group (RFC 4291, section 2.2, forms 1 and 2),
    /// letters in either case. `None` exactly where the text is not so; a zone or an IPv4 address
    /// at the end is not read.
    pub fn parse(text: &[u8]) -> Option<V6>
        ensures sound { IfSome result (λ address. SpellsV6 address.bytes text.now) }
        ensures only { (bytes : List ℕ) → SpellsV6 bytes text.now
            → result ≡ Some (record { bytes = bytes }) }
    {
        let groups = groups(text)?;
        Some(V6 {
            bytes: bytes_of(&groups),
        })
    }

    /// Prints the groups in lower case without leading zeros, with `::` in place of the longest run
    /// of two or more zero groups, the first of runs as long (RFC 5952, section 4): 2 to 39 bytes.
    pub fn text(&self) -> ArrayString<40>
        ensures printed { PrintsV6 self.now.bytes result.bytes }
        ensures one { (other : List ℕ) → PrintsV6 self.now.bytes other → other ≡ result.bytes }
        ensures spelled { SpellsV6 self.now.bytes result.bytes }
    {
        text_of(&self.bytes)
    }
}
