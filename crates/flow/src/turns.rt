//! One turn of the event loop.

ghost use Rattle.std.specs.Prelude.{◌≡◌, ◌≤◌, ◌<◌, ◌+◌, ◌^◌, length, OnOk};
ghost use Rattle.bd_dev.specs.Faults.{HasCauseOr};
ghost use Rattle.flow.specs.Phase.{time_limit};
ghost use Rattle.flow.specs.Running.{AreInProgress, IsDueBelow, IsFirstDue, IsShut, TurnsOn, sooner_of};

use crate::cores::Core;
use crate::flows::{Flow, FlowFault};
use crate::sends::Sent;
use crate::steps::{pass_deadline, take_arrival};
use bd_dev::{Net, Next};
use std::alloc::Global;

/// When, in which round and from which number on the flows of a run were opened.
#[derive(Clone, Copy)]
pub(crate) struct Opening {
    pub(crate) start: u64,
    pub(crate) round: u32,
    pub(crate) first: u32,
}

/// The best so far, or this deadline where it is before it.
fn sooner(best: Option<(usize, u64)>, place: usize, due: Option<u64>) -> Option<(usize, u64)>
    ensures { result ≡ sooner_of best place due }
{
    match (best, due) {
        (best, None) => best,
        (None, Some(due)) => Some((place, due)),
        (Some((at, least)), Some(due)) => {
            if least <= due {
                Some((at, least))
            } else {
                Some((place, due))
            }
        }
    }
}

/// The place and the time of the first deadline, of several at one time that of the first flow.
pub(crate) fn earliest<C: Core>(flows: &[Flow<C>]) -> Option<(usize, u64)>
    ensures { IsDueBelow C.acts flows.now (length flows.now) result }
{
    let mut best = None;
    for (place, flow) in flows.iter().enumerate() {
        best = sooner(best, place, flow.core.deadline());
    }
    best
}

/// Waits until the first deadline, which is that of the flow at this place, and passes it, or takes
/// what comes to a flow before it.
pub(crate) fn turn<N: Net, C: Core>(
    alloc: Global,
    net: &mut N,
    opening: Opening,
    flows: &mut [Flow<C>],
    counts: &mut [u32],
    place: usize,
    due: u64,
    sends: &mut Vec<Sent>,
) -> Result<(), FlowFault>
    requires due { IsFirstDue C.acts flows.old (length flows.old) place due }
    requires progress { AreInProgress C.acts C.HasBegun opening.start opening.round opening.first
        (length flows.old) flows.old counts.old (N.open_flow net.old) (N.time net.old)
        sends.old.items }
    requires early { opening.start ≤ 2 ^ 63 }
    requires room { opening.first + 16 < 2 ^ 32 }
    ensures turns { OnOk result (TurnsOn C.acts C.HasBegun opening.start opening.round
        opening.first flows.old flows.new counts.old counts.new (N.open_flow net.new)
        (N.time net.old) (N.time net.new) (N.rows net.old) sends.old.items sends.new.items
        (N.sent net.old) (N.sent net.new)) }
    ensures shut { IsShut opening.first (length flows.new) (N.open_flow net.new) }
    ensures later { opening.start ≤ N.time net.new }
    ensures soon { N.time net.new ≤ opening.start + time_limit }
    ensures opened { N.opened net.new ≡ N.opened net.old }
    ensures rows { N.rows net.new ≡ N.rows net.old }
    ensures cause { HasCauseOr FlowFault.Net (N.faults net.old) (N.faults net.new) result }
{
    match net.next(opening.start + due)? {
        Next::Quiet => {
            let number = opening.first + place as u32;
            let flow = &mut flows[place];
            pass_deadline(alloc, net, opening.round, number, flow, due, sends)?;
        }
        Next::Came { flow, arrival } => {
            let at = net.now() - opening.start;
            let place = (flow - opening.first) as usize;
            let count = counts[place] + 1;
            take_arrival(
                alloc,
                net,
                opening.round,
                flow,
                &mut flows[place],
                count,
                at,
                &arrival,
                sends,
            )?;
            counts[place] = count;
        }
    }
    Ok(())
}
