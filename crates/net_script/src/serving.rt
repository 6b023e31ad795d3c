//! The files that a script serves, read.

ghost use Rattle.std.specs.Prelude.{◌≡◌, ◌++◌, ℕ, List, true, false, None, Some, Err, option_to_list, IfOk, OnOk};
ghost use Rattle.std.specs.Option.{ForSome};
ghost use Rattle.bd_dev.specs.Faults.{HasCauseOr};
ghost use Rattle.bd_dev.specs.Volumes.{Volume, file_of};
ghost use Rattle.net_script.specs.Serving.{AreBodies, IsBodyOf, feeds_of, first_lacking, lacks_body, net_volume, served};
ghost use Rattle.net_script.specs.declared.fault.ScriptFault.TheVariants.{Bad, Media as MediaFault};
ghost use Rattle.net_script.specs.declared.fault.ScriptKind.{ScriptKind};
ghost use Rattle.net_script.specs.declared.fault.ScriptKind.TheVariants.{NoBody};

use crate::fault::{ScriptFault, ScriptKind};
use crate::feed::{Body, Feed, What};
use crate::line::{Line, Numbered};
use bd_dev::{Media, Memory, read_file};
use std::alloc::Global;
use std::collections::BTreeMap;

/// The volume of the files.
const VOLUME: &[u8] = b"net";

/// The longest file, in bytes.
const LONGEST: u64 = 268_435_456;

/// The files that were read, by their names.
type Known = BTreeMap<Vec<u8>, Body>;

/// Keeps the body of the file of this name, or answers `Memory`.
fn keep(known: &mut Known, name: Vec<u8>, body: &Body) -> Result<(), Memory>
    ensures { OnOk result ((volumes : List Volume) → AreBodies volumes known.old
        → IsBodyOf (file_of volumes net_volume name.items) (Some body.now)
        → AreBodies volumes known.new) }
{
    let body = body.again()?;
    known.insert(name, body)?;
    Ok(())
}

/// The body of a served file, which is read where no line before served it. None where there is no such file, or it is
/// too long.
fn body_of<M: Media>(
    alloc: Global,
    media: &mut M,
    known: &mut Known,
    name: &[u8],
) -> Result<Option<Body>, ScriptFault>
    requires { ForSome (M.content media.old) (λ volumes. AreBodies volumes known.old) }
    ensures known { OnOk result (ForSome (M.content media.old) (λ volumes. AreBodies volumes known.new)) }
    ensures told { IfOk result (λ found. ForSome (M.content media.old) (λ volumes.
        IsBodyOf (file_of volumes net_volume name.now) found)) }
    ensures good { (line : ℕ) (kind : ScriptKind) → result ≡ Err (Bad line kind) → ⊥ }
    ensures kept { M.content media.new ≡ M.content media.old }
    ensures cause { HasCauseOr MediaFault (M.faults media.old) (M.faults media.new) result }
{
    let key = Vec::from_slice(alloc, name)?;
    if let Some(body) = known.get(&key) {
        return Ok(Some(body.again()?));
    }
    match media.find(VOLUME, name)? {
        Some(size) if size <= LONGEST => {
            let bytes = read_file(alloc, media, VOLUME, name, size)?;
            let body = Body::new(alloc, bytes)?;
            keep(known, key, &body)?;
            Ok(Some(body))
        }
        _ => Ok(None),
    }
}

/// What a line gives to flows, or nothing for the name of an interface.
fn served<M: Media>(
    alloc: Global,
    media: &mut M,
    known: &mut Known,
    numbered: Numbered,
) -> Result<Option<Feed>, ScriptFault>
    requires { ForSome (M.content media.old) (λ volumes. AreBodies volumes known.old) }
    ensures known { OnOk result (ForSome (M.content media.old) (λ volumes. AreBodies volumes known.new)) }
    ensures served { IfOk result (λ feed. ForSome (M.content media.old) (λ volumes.
        (option_to_list feed ≡ feeds_of volumes numbered.line) × (lacks_body volumes numbered.line ≡ false))) }
    ensures bad { (line : ℕ) (kind : ScriptKind) → result ≡ Err (Bad line kind)
        → (line ≡ numbered.number) × (kind ≡ NoBody)
        × ForSome (M.content media.old) (λ volumes. lacks_body volumes numbered.line ≡ true) }
    ensures kept { M.content media.new ≡ M.content media.old }
    ensures cause { HasCauseOr MediaFault (M.faults media.old) (M.faults media.new) result }
{
    let Numbered { number, line } = numbered;
    match line {
        Line::Iface(_name) => Ok(None),
        Line::Flow { rounds, label } => Ok(Some(Feed::Flow { rounds, label })),
        Line::At { at, arrival } => Ok(Some(Feed::At { at, arrival })),
        Line::Tftp {
            rounds,
            label,
            file,
            every,
        } => {
            let Some(body) = body_of(alloc, media, known, file.as_slice())? else {
                return Err(ScriptFault::Bad {
                    line: number,
                    kind: ScriptKind::NoBody,
                });
            };
            Ok(Some(Feed::Serves {
                rounds,
                label,
                what: What::Blocks { every, body },
            }))
        }
    }
}

/// What the lines give to flows, in order. Answers `NoBody` for the first line whose file the volume `net` lacks, or
/// has with more than 268,435,456 bytes; `Media` where the media failed, and counted it; or `Memory`.
pub(crate) fn serve<M: Media>(
    alloc: Global,
    media: &mut M,
    lines: Vec<Numbered>,
) -> Result<Vec<Feed>, ScriptFault>
    ensures served { IfOk result (λ feeds. ForSome (M.content media.old) (λ volumes.
        (feeds.items ≡ served volumes lines.items) × (first_lacking volumes lines.items ≡ None))) }
    ensures bad { (line : ℕ) (kind : ScriptKind) → result ≡ Err (Bad line kind)
        → (kind ≡ NoBody)
        × ForSome (M.content media.old) (λ volumes. first_lacking volumes lines.items ≡ Some line) }
    ensures kept { M.content media.new ≡ M.content media.old }
    ensures cause { HasCauseOr MediaFault (M.faults media.old) (M.faults media.new) result }
{
    let mut feeds = Vec::new(alloc);
    let mut known = BTreeMap::new(alloc);
    for numbered in lines {
        let feed = served(alloc, media, &mut known, numbered)?;
        push(&mut feeds, feed)?;
    }
    Ok(feeds)
}

/// Puts a feed at the end, if there is one, or answers `Memory`.
fn push(feeds: &mut Vec<Feed>, feed: Option<Feed>) -> Result<(), Memory>
    ensures { OnOk result (feeds.new.items ≡ feeds.old.items ++ option_to_list feed) }
{
    if let Some(feed) = feed {
        feeds.push(feed)?;
    }
    Ok(())
}
