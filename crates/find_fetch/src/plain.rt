//! A fetcher that makes one fetch after the other.

ghost use Rattle.std.specs.Prelude.{◌≡◌, ◌≢◌, Err, ◌≤◌, ◌<◌, ℕ, ◌+◌, ◌-◌, ◌^◌, List, [], ◌∷◌, Option, false, true, None, Some, IfOk, OnOk, OnErr};
ghost use Rattle.std.specs.Option.{ForSome};
ghost use Rattle.bd_dev.specs.Faults.{HasCauseOr};
ghost use Rattle.bd_dev.specs.Rows.{arrivals};
ghost use Rattle.bd_dev.specs.Sink.{Appends, AppendsFront};
ghost use Rattle.flow.specs.Phase.{time_limit};
ghost use Rattle.find_fetch.specs.Aim.{IsAskable, label_of};
ghost use Rattle.find_fetch.specs.Bodies.{outcome_of};
ghost use Rattle.find_fetch.specs.Fetching.{phase_text, talk_at};
ghost use Rattle.find_fetch.specs.Local.{IsWithinLimit};

use crate::aiming::aim;
use crate::body_core::BodyCore;
use crate::fetched::{FetchFault, Fetched, Miss};
use crate::fetcher::Fetcher;
use crate::labels::body_label;
use crate::local::read_local;
use crate::request::{Aim, Aimed, Spot};
use bd_dev::{Media, Net, Sink, write_all};
use flow::{Flow, Sends, run};
use std::alloc::Global;
use std::slice;
use trace_text::trace_text;
use url_waterfall::{Candidate, Place};

/// Fetches over the devices that it is lent: files of local media, and bodies over the network, each by one client. The
/// sends of a fetch are written to the trace at its end.
#[derive(Drop)]
pub struct Plain<'a, N: Net, M: Media, T: Sink> {
    /// The network.
    pub net: &'a mut N,
    /// The media.
    pub media: &'a mut M,
    /// What takes the trace.
    pub trace: &'a mut T,
}

/// Sends a request to a host, and takes what comes: one phase with one client. Its sends are written to the trace.
fn seek<N: Net, T: Sink>(
    alloc: Global,
    net: &mut N,
    trace: &mut T,
    round: u32,
    aim: &Aim,
    host: &[u8],
) -> Result<Fetched, FetchFault>
    requires askable { IsAskable aim.now.way }
    requires closed { (n : ℕ) → N.open_flow net.old n ≡ None }
    requires early { N.time net.old ≤ 2 ^ 63 }
    requires room { N.opened net.old ≤ 2 ^ 32 - 17 }
    ensures found { IfOk result (λ found. ForSome (N.rows net.old) (λ rows.
        found ≡ (outcome_of aim.now (arrivals rows round (label_of aim.now host.now))).found)) }
    ensures passed { OnOk result (ForSome (N.rows net.old) (λ rows.
        (N.time net.new ≡ N.time net.old + (outcome_of aim.now (arrivals rows round (label_of aim.now host.now))).end)
        × (N.opened net.new ≡ N.opened net.old + 1)
        × Appends (T.taken trace.old) (T.taken trace.new)
        (phase_text rows round (talk_at aim.now host.now) (N.time net.old) (N.opened net.old)))) }
    ensures front { OnErr result (ForSome (N.rows net.old) (λ rows.
        AppendsFront (T.taken trace.old) (T.taken trace.new)
        (phase_text rows round (talk_at aim.now host.now) (N.time net.old) (N.opened net.old)))) }
    ensures rows { N.rows net.new ≡ N.rows net.old }
    ensures closed { (n : ℕ) → N.open_flow net.new n ≡ None }
    ensures most { N.opened net.new ≤ N.opened net.old + 1 }
    ensures soon { N.time net.new ≤ N.time net.old + time_limit }
    ensures net { HasCauseOr FetchFault.Net (N.faults net.old) (N.faults net.new) result }
    ensures trace { HasCauseOr FetchFault.Sink (T.faults trace.old) (T.faults trace.new) result }
    ensures no_media { result ≢ Err FetchFault.Media }
    ensures within { IfOk result IsWithinLimit }
{
    let label = body_label(alloc, aim, host)?;
    let core = BodyCore::new(alloc, aim)?;
    let mut flow = Flow { label, core };
    let mut sends = Sends::new(alloc);
    run(alloc, net, round, slice::from_mut(&mut flow), &mut sends)?;
    let text = trace_text(alloc, sends.as_slice())?;
    let Ok(()) = write_all(trace, text.as_slice()) else {
        return Err(FetchFault::Sink);
    };
    Ok(flow.core.result())
}

impl<'a, N: Net, M: Media, T: Sink> Fetcher for Plain<'a, N, M, T> {
    ghost use Rattle.find_fetch.specs.Fetching.{BreaksOff, Fetches, HasLeft, answer_of, seen};
    ghost use Rattle.find_fetch.specs.Joining.{fetches_break, fetches_join, fetches_none, fewer_left};
    ghost use Rattle.std.specs.Prelude.{refl};
    ghost use Rattle.std.proofs.Common.{◌∙◌};

    ghost answer = { λ p. answer_of (N.rows p.net.now) (M.content p.media.now) };

    ghost media_faults = { λ p. M.faults p.media.now };

    ghost net_faults = { λ p. N.faults p.net.now };

    ghost trace_faults = { λ p. T.faults p.trace.now };

    ghost OfNet = { N };

    ghost OfMedia = { M };

    ghost OfTrace = { T };

    ghost net_value = { λ p. p.net.now };

    ghost media_value = { λ p. p.media.now };

    ghost trace_value = { λ p. p.trace.now };

    ghost Made = { λ before asked after. (after.net.ghost_name ≡ before.net.ghost_name)
        × (after.media.ghost_name ≡ before.media.ghost_name) × (after.trace.ghost_name ≡ before.trace.ghost_name)
        × Fetches
        (seen (N.rows before.net.now) (M.content before.media.now) (N.time before.net.now) (N.opened before.net.now) (N.open_flow before.net.now) (T.taken before.trace.now))
        asked
        (seen (N.rows after.net.now) (M.content after.media.now) (N.time after.net.now) (N.opened after.net.now) (N.open_flow after.net.now) (T.taken after.trace.now)) };

    ghost Broken = { λ before asked after. (after.net.ghost_name ≡ before.net.ghost_name)
        × (after.media.ghost_name ≡ before.media.ghost_name) × (after.trace.ghost_name ≡ before.trace.ghost_name)
        × BreaksOff
        (seen (N.rows before.net.now) (M.content before.media.now) (N.time before.net.now) (N.opened before.net.now) (N.open_flow before.net.now) (T.taken before.trace.now))
        asked
        (seen (N.rows after.net.now) (M.content after.media.now) (N.time after.net.now) (N.opened after.net.now) (N.open_flow after.net.now) (T.taken after.trace.now)) };

    ghost Left = { λ p n. HasLeft
        (seen (N.rows p.net.now) (M.content p.media.now) (N.time p.net.now) (N.opened p.net.now) (N.open_flow p.net.now) (T.taken p.trace.now))
        n };

    fn fetch(
        &mut self,
        alloc: Global,
        round: u32,
        candidate: &Candidate,
    ) -> Result<Fetched, FetchFault> {
        match aim(alloc, candidate)? {
            Aimed::Local => {
                let Place::Local { volume, name } = &candidate.place else {
                    return Ok(Fetched::Miss(Miss::NoFile));
                };
                read_local(alloc, self.media, volume.as_slice(), name.as_slice())
            }
            Aimed::Refused(miss) => Ok(Fetched::Miss(miss)),
            Aimed::Aim(aim) => match &aim.spot {
                Spot::At(host) => seek(alloc, self.net, self.trace, round, &aim, host.as_slice()),
                Spot::Called(_) => Ok(Fetched::Miss(Miss::NoServer)),
            },
        }
    }

    ghost lawful = { record {
      none = λ p. (refl, refl, refl, fetches_none (seen (N.rows p.net.now) (M.content p.media.now) (N.time p.net.now) (N.opened p.net.now) (N.open_flow p.net.now) (T.taken p.trace.now)));
      join = λ p q r xs ys a b. (b.0 ∙ a.0, b.1 ∙ a.1, b.2 ∙ a.2, fetches_join (seen (N.rows p.net.now) (M.content p.media.now) (N.time p.net.now) (N.opened p.net.now) (N.open_flow p.net.now) (T.taken p.trace.now)) (seen (N.rows q.net.now) (M.content q.media.now) (N.time q.net.now) (N.opened q.net.now) (N.open_flow q.net.now) (T.taken q.trace.now)) (seen (N.rows r.net.now) (M.content r.media.now) (N.time r.net.now) (N.opened r.net.now) (N.open_flow r.net.now) (T.taken r.trace.now)) xs ys a.3 b.3);
      breaks = λ p q r xs ys a b. (b.0 ∙ a.0, b.1 ∙ a.1, b.2 ∙ a.2, fetches_break (seen (N.rows p.net.now) (M.content p.media.now) (N.time p.net.now) (N.opened p.net.now) (N.open_flow p.net.now) (T.taken p.trace.now)) (seen (N.rows q.net.now) (M.content q.media.now) (N.time q.net.now) (N.opened q.net.now) (N.open_flow q.net.now) (T.taken q.trace.now)) (seen (N.rows r.net.now) (M.content r.media.now) (N.time r.net.now) (N.opened r.net.now) (N.open_flow r.net.now) (T.taken r.trace.now)) xs ys a.3 b.3);
      fewer = λ p n h. fewer_left (seen (N.rows p.net.now) (M.content p.media.now) (N.time p.net.now) (N.opened p.net.now) (N.open_flow p.net.now) (T.taken p.trace.now)) n h;
    } };
}
