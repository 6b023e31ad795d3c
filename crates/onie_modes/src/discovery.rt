//! One round of discovery: each candidate is fetched, and its line printed.

ghost use Rattle.std.specs.Prelude.{◌≡◌, ◌≢◌, ◌⊎◌, ℕ, ◌+◌, List, [], ◌∷◌, false, Err, IfOk, IfErr, OnOk, OnErr};
ghost use Rattle.std.specs.Option.{ForSome};
ghost use Rattle.bd_dev.specs.Faults.{HasCauseOr};
ghost use Rattle.bd_dev.specs.Sink.{Appends, AppendsFront};
ghost use Rattle.fetch_text.specs.Lines.{line_of};
ghost use Rattle.find_fetch.specs.Fetching.{is_local, needs};
ghost use Rattle.find_fetch.specs.declared.fetched.Fetched.{Fetched};
ghost use Rattle.tlvinfo.specs.IdentityView.{board_of};
ghost use Rattle.url_waterfall.specs.declared.candidate.Candidate.{Candidate};
ghost use Rattle.onie_modes.specs.Asking.{AnswersAs, EndsAmong, HasCauseOfTwo, asked_all, lines_by, needs_all};
ghost use Rattle.onie_modes.specs.Console.{AppendsLines};
ghost use Rattle.onie_modes.specs.Devices.{devices, seen};
ghost use Rattle.onie_modes.specs.Discover.{discover_text, discovers};
ghost use Rattle.onie_modes.specs.Running.{Does, Runs};

use crate::exit::{Outcome, Status};
use crate::identity::load_identity;
use crate::refusal::report;
use crate::script::open_net;
use bd_dev::{Bytes, DevFault, Eeprom, Media, Memory, Sink, Source, write_all};
use bd_mode::Mode;
use fetch_text::{found_line, miss_line};
use find_fetch::{FetchFault, Fetched, Fetcher, Plain};
use net_script::ScriptNet;
use std::alloc::Global;
use tlvinfo::Identity;
use url_waterfall::{Candidate, candidates};

/// The round in which candidates are listed.
const ROUND: u32 = 1;

/// The line of a candidate, by what a fetch gave of it.
fn candidate_line(alloc: Global, shown: &[u8], fetched: &Fetched) -> Result<Bytes, Memory>
    ensures { IfOk result (λ line. line ≡ line_of shown.now fetched.now) }
{
    match fetched {
        Fetched::Body(body) => found_line(alloc, shown, body.as_slice().len() as u64),
        Fetched::Miss(miss) => miss_line(alloc, shown, *miss),
    }
}

/// Fetches a candidate, and prints its line.
fn print_one<F: Fetcher, C: Sink>(
    alloc: Global,
    fetcher: &mut F,
    console: &mut C,
    candidate: &Candidate,
) -> Result<(), FetchFault>
    requires left { is_local candidate.now ≡ false → F.Left fetcher.old 1 }
    ensures line { OnOk result (ForSome (F.answer fetcher.old 1 candidate.now) (λ found.
        Appends (C.taken console.old) (C.taken console.new) (line_of candidate.now.shown found))) }
    ensures front { OnErr result (ForSome (F.answer fetcher.old 1 candidate.now) (λ found.
        AppendsFront (C.taken console.old) (C.taken console.new) (line_of candidate.now.shown found))) }
    ensures unprinted { IfErr result (λ fault. fault ≢ FetchFault.Sink → C.taken console.new ≡ C.taken console.old) }
    ensures same { (r : ℕ) (c : Candidate) → F.answer fetcher.new r c ≡ F.answer fetcher.old r c }
    ensures made { OnOk result (F.Made fetcher.old (asked_all (candidate.now ∷ [])) fetcher.new) }
    ensures ended { OnErr result (F.Made fetcher.old (asked_all (candidate.now ∷ [])) fetcher.new
        ⊎ F.Broken fetcher.old (asked_all (candidate.now ∷ [])) fetcher.new) }
    ensures left { (n : ℕ) → F.Left fetcher.old (n + needs candidate.now) → F.Left fetcher.new n }
    ensures media { HasCauseOr FetchFault.Media (F.media_faults fetcher.old) (F.media_faults fetcher.new) result }
    ensures net { HasCauseOr FetchFault.Net (F.net_faults fetcher.old) (F.net_faults fetcher.new) result }
    ensures sink { HasCauseOfTwo FetchFault.Sink (C.faults console.old) (C.faults console.new)
        (F.trace_faults fetcher.old) (F.trace_faults fetcher.new) result }
{
    let fetched = fetcher.fetch(alloc, ROUND, candidate)?;
    let line = candidate_line(alloc, candidate.shown.as_slice(), &fetched)?;
    match write_all(console, line.as_slice()) {
        Ok(()) => Ok(()),
        Err(_) => Err(FetchFault::Sink),
    }
}

/// Fetches the candidates one after the other, and prints a line for each.
fn print_all<F: Fetcher, C: Sink>(
    alloc: Global,
    fetcher: &mut F,
    console: &mut C,
    list: &[Candidate],
) -> Result<(), FetchFault>
    requires left { F.Left fetcher.old (needs_all list.now) }
    ensures lines { OnOk result ((found : Candidate → Fetched) → AnswersAs (F.answer fetcher.old) found
        → Appends (C.taken console.old) (C.taken console.new) (lines_by found list.now)) }
    ensures front { OnErr result ((found : Candidate → Fetched) → AnswersAs (F.answer fetcher.old) found
        → AppendsFront (C.taken console.old) (C.taken console.new) (lines_by found list.now)) }
    ensures whole { IfErr result (λ fault. fault ≢ FetchFault.Sink → (found : Candidate → Fetched) → AnswersAs (F.answer fetcher.old) found
        → AppendsLines (C.taken console.old) (C.taken console.new) (lines_by found list.now)) }
    ensures made { OnOk result (F.Made fetcher.old (asked_all list.now) fetcher.new) }
    ensures ended { OnErr result (EndsAmong F.Made F.Broken fetcher.old (asked_all list.now) fetcher.new) }
    ensures media { HasCauseOr FetchFault.Media (F.media_faults fetcher.old) (F.media_faults fetcher.new) result }
    ensures net { HasCauseOr FetchFault.Net (F.net_faults fetcher.old) (F.net_faults fetcher.new) result }
    ensures sink { HasCauseOfTwo FetchFault.Sink (C.faults console.old) (C.faults console.new)
        (F.trace_faults fetcher.old) (F.trace_faults fetcher.new) result }
{
    for candidate in list {
        print_one(alloc, fetcher, console, candidate)?;
    }
    Ok(())
}

/// Prints a line for each candidate for installing on the board. Nothing is sent: none is on the network yet.
fn print_candidates<M: Media, C: Sink, T: Sink>(
    alloc: Global,
    identity: &Identity,
    net: &mut ScriptNet,
    media: &mut M,
    console: &mut C,
    trace: &mut T,
) -> Result<(), FetchFault>
    requires begins { (net.old.time ≡ 0) × (net.old.flows ≡ []) }
    ensures lines { OnOk result (ForSome (M.content media.old) (λ volumes.
        Appends (C.taken console.old) (C.taken console.new) (discover_text (board_of identity.now) net.old.rows volumes))) }
    ensures front { OnErr result (ForSome (M.content media.old) (λ volumes.
        AppendsFront (C.taken console.old) (C.taken console.new) (discover_text (board_of identity.now) net.old.rows volumes))) }
    ensures whole { IfErr result (λ fault. fault ≢ FetchFault.Sink → ForSome (M.content media.old) (λ volumes.
        AppendsLines (C.taken console.old) (C.taken console.new) (discover_text (board_of identity.now) net.old.rows volumes))) }
    ensures untraced { T.taken trace.new ≡ T.taken trace.old }
    ensures media { HasCauseOr FetchFault.Media (M.faults media.old) (M.faults media.new) result }
    ensures no_net { result ≢ Err FetchFault.Net }
    ensures sink { HasCauseOfTwo FetchFault.Sink (C.faults console.old) (C.faults console.new)
        (T.faults trace.old) (T.faults trace.new) result }
{
    let volumes = match media.volumes(alloc) {
        Ok(volumes) => volumes,
        Err(DevFault::Failed) => return Err(FetchFault::Media),
        Err(DevFault::Memory) => return Err(FetchFault::Memory),
    };
    let list = candidates(alloc, identity, Mode::Install, &volumes)?;
    let mut fetcher = Plain { net, media, trace };
    print_all(alloc, &mut fetcher, console, &list)
}

/// Lists the candidates; the line of its end is not written yet.
fn list<E: Eeprom, M: Media, S: Source, C: Sink, T: Sink>(
    alloc: Global,
    eeprom: &mut E,
    media: &mut M,
    script: &mut S,
    console: &mut C,
    trace: &mut T,
) -> Status
    ensures kept { E.content eeprom.new ≡ E.content eeprom.old }
    ensures runs { (plant : ℕ) → Runs discovers
        (devices plant (seen (E.content eeprom.old) (E.faults eeprom.old)) (seen (M.content media.old) (M.faults media.old))
        (seen (S.left script.old) (S.faults script.old)) (seen (C.taken console.old) (C.faults console.old))
        (seen (T.taken trace.old) (T.faults trace.old)))
        (devices plant (seen (E.content eeprom.new) (E.faults eeprom.new)) (seen (M.content media.new) (M.faults media.new))
        (seen (S.left script.new) (S.faults script.new)) (seen (C.taken console.new) (C.faults console.new))
        (seen (T.taken trace.new) (T.faults trace.new))) result }
{
    let identity = match load_identity(alloc, eeprom) {
        Ok(identity) => identity,
        Err(fault) => return fault.status(),
    };
    let mut net = match open_net(alloc, script, identity.mac, media) {
        Ok(net) => net,
        Err(fault) => return fault.status(),
    };
    match print_candidates(alloc, &identity, &mut net, media, console, trace) {
        Ok(()) => Status::Done(Outcome::Printed),
        Err(FetchFault::Media) => Status::MediaFault,
        Err(FetchFault::Net) => unreachable!(),
        Err(FetchFault::Sink) => Status::SinkFault,
        Err(FetchFault::Memory) => Status::Memory,
    }
}

/// Does what the word `discover` asks for: lists the candidates for installing on the board that the EEPROM holds, a line
/// each with what a fetch gives of it, over the network that the script makes. A refusal writes its line on the console.
/// Answers how it went.
pub fn discover<E: Eeprom, M: Media, S: Source, C: Sink, T: Sink>(
    alloc: Global,
    eeprom: &mut E,
    media: &mut M,
    script: &mut S,
    console: &mut C,
    trace: &mut T,
) -> Status
    ensures kept { E.content eeprom.new ≡ E.content eeprom.old }
    ensures does { (plant : ℕ) → Does discovers
        (devices plant (seen (E.content eeprom.old) (E.faults eeprom.old)) (seen (M.content media.old) (M.faults media.old))
        (seen (S.left script.old) (S.faults script.old)) (seen (C.taken console.old) (C.faults console.old))
        (seen (T.taken trace.old) (T.faults trace.old)))
        (devices plant (seen (E.content eeprom.new) (E.faults eeprom.new)) (seen (M.content media.new) (M.faults media.new))
        (seen (S.left script.new) (S.faults script.new)) (seen (C.taken console.new) (C.faults console.new))
        (seen (T.taken trace.new) (T.faults trace.new))) result }
{
    let status = list(alloc, eeprom, media, script, console, trace);
    report(console, status)
}
