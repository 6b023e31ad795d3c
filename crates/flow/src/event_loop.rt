//! A run of several flows on one network.

ghost use Rattle.std.specs.Prelude.{◌≡◌, ◌≤◌, ◌<◌, ◌+◌, ◌-◌, ◌^◌, ℕ, None, Some, length, slice_get, OnOk, OnErr};
ghost use Rattle.bd_dev.specs.Faults.{HasCauseOr};
ghost use Rattle.flow.specs.declared.flows.Flow.{Flow};
ghost use Rattle.flow.specs.Phase.{IsPhase, time_limit};
ghost use Rattle.flow.specs.Running.{AreInProgress, HasRun, IsShut, no_counts};

use crate::cores::Core;
use crate::flows::{Flow, FlowFault};
use crate::opens::{close_all, open_all};
use crate::sends::{Sends, Sent};
use crate::turns::{Opening, earliest, turn};
use bd_dev::Net;
use std::alloc::Global;

/// Turns until all cores are done.
fn race<N: Net, C: Core>(
    alloc: Global,
    net: &mut N,
    opening: Opening,
    flows: &mut [Flow<C>],
    sends: &mut Vec<Sent>,
) -> Result<(), FlowFault>
    requires progress { AreInProgress C.acts C.HasBegun opening.start opening.round opening.first
        (length flows.old) flows.old no_counts (N.open_flow net.old) (N.time net.old)
        sends.old.items }
    requires start { N.time net.old ≡ opening.start }
    requires early { opening.start ≤ 2 ^ 63 }
    requires room { opening.first + 16 < 2 ^ 32 }
    ensures has_run { OnOk result (HasRun C.acts C.HasBegun opening.start opening.round
        opening.first flows.old flows.new (N.open_flow net.new) (N.time net.new) (N.rows net.old)
        sends.old.items sends.new.items (N.sent net.old) (N.sent net.new)) }
    ensures shut { IsShut opening.first (length flows.new) (N.open_flow net.new) }
    ensures later { opening.start ≤ N.time net.new }
    ensures soon { N.time net.new ≤ opening.start + time_limit }
    ensures opened { N.opened net.new ≡ N.opened net.old }
    ensures rows { N.rows net.new ≡ N.rows net.old }
    ensures cause { HasCauseOr FlowFault.Net (N.faults net.old) (N.faults net.new) result }
{
    let mut counts = [0u32; 16];
    while let Some((place, due)) = earliest(flows) {
        turn(alloc, net, opening, flows, &mut counts, place, due, sends)?;
    }
    Ok(())
}

/// Runs the cores of at most 16 flows side by side: opens all flows of this round at one time,
/// passes deadlines and arrivals to the cores, sends their letters, closes each flow once its core
/// is done, and ends with the last. A deadline goes before an arrival of the same time. A core that
/// is not done with its arrival number 131,072 is ended.
///
/// Each core ends as it would end alone with what comes to its label, whatever other flows there
/// are and however ties between them fall. What they send is put at the end of `sends`, in order
/// of time, ties in order of the flows' numbers. The work is linear in the arrivals.
///
/// Answers `Net` where the network failed, and `Memory` for want of memory. Then `sends` is as it
/// was, and the cores are not used again. No flow is open afterwards, whatever the answer.
pub fn run<N: Net, C: Core>(
    alloc: Global,
    net: &mut N,
    round: u32,
    flows: &mut [Flow<C>],
    sends: &mut Sends,
) -> Result<(), FlowFault>
    requires few { length flows.old ≤ 16 }
    requires new { (i : ℕ) (f : Flow C) → slice_get flows.old i ≡ Some f → C.IsNew f.core }
    requires closed { (n : ℕ) → N.open_flow net.old n ≡ None }
    requires early { N.time net.old ≤ 2 ^ 63 }
    requires room { N.opened net.old ≤ 2 ^ 32 - 17 }
    ensures phase { OnOk result (IsPhase C.acts C.HasBegun (N.time net.old) round
        (N.opened net.old) (N.rows net.old) flows.old flows.new sends.old sends.new
        (N.sent net.old) (N.sent net.new) (N.time net.new)) }
    ensures opened { OnOk result (N.opened net.new ≡ N.opened net.old + length flows.new) }
    ensures unsent { OnErr result (sends.new ≡ sends.old) }
    ensures closed { (n : ℕ) → N.open_flow net.new n ≡ None }
    ensures least { N.opened net.old ≤ N.opened net.new }
    ensures most { N.opened net.new ≤ N.opened net.old + length flows.new }
    ensures later { N.time net.old ≤ N.time net.new }
    ensures soon { N.time net.new ≤ N.time net.old + time_limit }
    ensures rows { N.rows net.new ≡ N.rows net.old }
    ensures cause { HasCauseOr FlowFault.Net (N.faults net.old) (N.faults net.new) result }
{
    if flows.is_empty() {
        return Ok(());
    }
    let start = net.now();
    let mut sent = Vec::new(alloc);
    let first = open_all(alloc, net, round, flows, &mut sent)?;
    let opening = Opening {
        start,
        round,
        first,
    };
    match race(alloc, net, opening, flows, &mut sent) {
        Ok(()) => {
            sends.append(sent)?;
            Ok(())
        }
        Err(fault) => {
            close_all(net, first, flows.len());
            Err(fault)
        }
    }
}
