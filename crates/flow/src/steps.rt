//! One call of a flow's core, and what it sends.

ghost use Rattle.std.specs.Prelude.{◌≡◌, ◌≤◌, ◌<◌, ◌^◌, ◌++◌, ℕ, Some, OnOk, OnErr};
ghost use Rattle.bd_dev.specs.Faults.{HasCauseOr};
ghost use Rattle.flow.specs.Core.{IsEarly};
ghost use Rattle.flow.specs.Own.{unless_flooded};
ghost use Rattle.flow.specs.Running.{GoesOn, with_core};

use crate::cores::Core;
use crate::flows::{Flow, FlowFault};
use crate::letters::Outbox;
use crate::posting::{close_if_done, post};
use crate::sends::Sent;
use bd_dev::{Arrival, Memory, Net};
use std::alloc::Global;

/// The core that is not done with this many arrivals is ended.
const FLOOD: u32 = 131072;

/// The core takes its arrival of this number.
fn arrive<C: Core>(
    core: &mut C,
    count: u32,
    at: u64,
    arrival: &Arrival,
    out: &mut Outbox,
) -> Result<(), Memory>
    requires begun { C.HasBegun core.old }
    requires early { IsEarly at (C.acts.deadline core.old) }
    requires small { at ≤ 2 ^ 63 }
    ensures core { OnOk result
        (core.new ≡ unless_flooded C.acts count (C.acts.arrived core.old at arrival.now)) }
    ensures letters { OnOk result
        (out.new ≡ out.old ++ C.acts.arrived_letters core.old at arrival.now) }
{
    core.arrive(at, arrival, out)?;
    if count == FLOOD && core.deadline().is_some() {
        core.flood();
    }
    Ok(())
}

/// The core of a flow that was just opened begins.
pub(crate) fn begin<N: Net, C: Core>(
    alloc: Global,
    net: &mut N,
    round: u32,
    number: u32,
    flow: &mut Flow<C>,
    sends: &mut Vec<Sent>,
) -> Result<(), FlowFault>
    requires { C.IsNew flow.old.core }
    ensures core { OnOk result (flow.new ≡ with_core flow.old (C.acts.begun flow.old.core)) }
    ensures goes { OnOk result (GoesOn (N.time net.old) round number flow.old.label
        (C.acts.begun_letters flow.old.core)
        (C.acts.deadline (C.acts.begun flow.old.core))
        (N.open_flow net.old) (N.open_flow net.new) sends.old.items sends.new.items
        (N.sent net.old) (N.sent net.new)) }
    ensures unchanged { OnErr result ((n : ℕ) → N.open_flow net.new n ≡ N.open_flow net.old n) }
    ensures opened { N.opened net.new ≡ N.opened net.old }
    ensures time { N.time net.new ≡ N.time net.old }
    ensures rows { N.rows net.new ≡ N.rows net.old }
    ensures cause { HasCauseOr FlowFault.Net (N.faults net.old) (N.faults net.new) result }
{
    let mut out = Outbox::new(alloc);
    flow.core.begin(&mut out)?;
    post(
        alloc,
        net,
        round,
        number,
        flow.label.as_slice(),
        &out,
        sends,
    )?;
    close_if_done(net, number, &flow.core);
    Ok(())
}

/// The deadline of a flow's core passes.
pub(crate) fn pass_deadline<N: Net, C: Core>(
    alloc: Global,
    net: &mut N,
    round: u32,
    number: u32,
    flow: &mut Flow<C>,
    due: u64,
    sends: &mut Vec<Sent>,
) -> Result<(), FlowFault>
    requires begun { C.HasBegun flow.old.core }
    requires due { C.acts.deadline flow.old.core ≡ Some due }
    requires small { due ≤ 2 ^ 63 }
    ensures core { OnOk result (flow.new ≡ with_core flow.old (C.acts.expired flow.old.core due)) }
    ensures goes { OnOk result (GoesOn (N.time net.old) round number flow.old.label
        (C.acts.expired_letters flow.old.core due)
        (C.acts.deadline (C.acts.expired flow.old.core due))
        (N.open_flow net.old) (N.open_flow net.new) sends.old.items sends.new.items
        (N.sent net.old) (N.sent net.new)) }
    ensures unchanged { OnErr result ((n : ℕ) → N.open_flow net.new n ≡ N.open_flow net.old n) }
    ensures opened { N.opened net.new ≡ N.opened net.old }
    ensures time { N.time net.new ≡ N.time net.old }
    ensures rows { N.rows net.new ≡ N.rows net.old }
    ensures cause { HasCauseOr FlowFault.Net (N.faults net.old) (N.faults net.new) result }
{
    let mut out = Outbox::new(alloc);
    flow.core.expire(due, &mut out)?;
    post(
        alloc,
        net,
        round,
        number,
        flow.label.as_slice(),
        &out,
        sends,
    )?;
    close_if_done(net, number, &flow.core);
    Ok(())
}

/// The arrival of this number comes to a flow's core.
pub(crate) fn take_arrival<N: Net, C: Core>(
    alloc: Global,
    net: &mut N,
    round: u32,
    number: u32,
    flow: &mut Flow<C>,
    count: u32,
    at: u64,
    arrival: &Arrival,
    sends: &mut Vec<Sent>,
) -> Result<(), FlowFault>
    requires begun { C.HasBegun flow.old.core }
    requires early { IsEarly at (C.acts.deadline flow.old.core) }
    requires small { at ≤ 2 ^ 63 }
    ensures core { OnOk result (flow.new ≡ with_core flow.old
        (unless_flooded C.acts count (C.acts.arrived flow.old.core at arrival.now))) }
    ensures goes { OnOk result (GoesOn (N.time net.old) round number flow.old.label
        (C.acts.arrived_letters flow.old.core at arrival.now)
        (C.acts.deadline
        (unless_flooded C.acts count (C.acts.arrived flow.old.core at arrival.now)))
        (N.open_flow net.old) (N.open_flow net.new) sends.old.items sends.new.items
        (N.sent net.old) (N.sent net.new)) }
    ensures unchanged { OnErr result ((n : ℕ) → N.open_flow net.new n ≡ N.open_flow net.old n) }
    ensures opened { N.opened net.new ≡ N.opened net.old }
    ensures time { N.time net.new ≡ N.time net.old }
    ensures rows { N.rows net.new ≡ N.rows net.old }
    ensures cause { HasCauseOr FlowFault.Net (N.faults net.old) (N.faults net.new) result }
{
    let mut out = Outbox::new(alloc);
    arrive(&mut flow.core, count, at, arrival, &mut out)?;
    post(
        alloc,
        net,
        round,
        number,
        flow.label.as_slice(),
        &out,
        sends,
    )?;
    close_if_done(net, number, &flow.core);
    Ok(())
}
