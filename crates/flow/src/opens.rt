//! Opens and closes the flows of a run.

ghost use Rattle.std.specs.Prelude.{◌≡◌, ◌⊎◌, ◌≤◌, ◌<◌, ◌+◌, ◌-◌, ◌^◌, ℕ, [], None, Some, length, slice_get, IfOk, OnOk, OnErr};
ghost use Rattle.bd_dev.specs.Faults.{HasCauseOr};
ghost use Rattle.flow.specs.declared.flows.Flow.{Flow};
ghost use Rattle.flow.specs.Running.{BeginsAt, IsOpening, with_core};

use crate::cores::Core;
use crate::flows::{Flow, FlowFault};
use crate::sends::Sent;
use crate::steps::begin;
use bd_dev::Net;
use std::alloc::Global;

/// Opens a flow, and its core begins. Where it fails the flow is closed.
fn open_one<N: Net, C: Core>(
    alloc: Global,
    net: &mut N,
    round: u32,
    flow: &mut Flow<C>,
    sends: &mut Vec<Sent>,
) -> Result<u32, FlowFault>
    requires new { C.IsNew flow.old.core }
    requires room { N.opened net.old < 2 ^ 32 - 1 }
    ensures number { IfOk result (λ number. number ≡ N.opened net.old) }
    ensures core { OnOk result (flow.new ≡ with_core flow.old (C.acts.begun flow.old.core)) }
    ensures begins { OnOk result (BeginsAt (N.time net.old) round (N.opened net.old) flow.old.label
        (C.acts.begun_letters flow.old.core)
        (C.acts.deadline (C.acts.begun flow.old.core))
        (N.open_flow net.old) (N.open_flow net.new) sends.old.items sends.new.items
        (N.sent net.old) (N.sent net.new)) }
    ensures opened { OnOk result (N.opened net.new ≡ N.opened net.old + 1) }
    ensures closed { OnErr result ((n : ℕ) → N.open_flow net.new n ≡ N.open_flow net.old n) }
    ensures least { N.opened net.old ≤ N.opened net.new }
    ensures most { N.opened net.new ≤ N.opened net.old + 1 }
    ensures time { N.time net.new ≡ N.time net.old }
    ensures rows { N.rows net.new ≡ N.rows net.old }
    ensures cause { HasCauseOr FlowFault.Net (N.faults net.old) (N.faults net.new) result }
{
    let number = net.open(round, flow.label.as_slice())?;
    match begin(alloc, net, round, number, flow, sends) {
        Ok(()) => Ok(number),
        Err(fault) => {
            net.close(number);
            Err(fault)
        }
    }
}

/// Closes this many flows from the first on.
pub(crate) fn close_all<N: Net>(net: &mut N, first: u32, count: usize)
    requires { first + count ≤ 2 ^ 32 }
    ensures closed { (i : ℕ) → i < count → N.open_flow net.new (first + i) ≡ None }
    ensures others { (n : ℕ) → (n < first) ⊎ (first + count ≤ n)
        → N.open_flow net.new n ≡ N.open_flow net.old n }
    ensures opened { N.opened net.new ≡ N.opened net.old }
    ensures time { N.time net.new ≡ N.time net.old }
    ensures rows { N.rows net.new ≡ N.rows net.old }
    ensures faults { N.faults net.new ≡ N.faults net.old }
{
    for i in 0..count {
        net.close(first + i as u32);
    }
}

/// Opens all flows at one time, their cores begin, and the number of the first is given. Where that
/// fails no flow stays open.
pub(crate) fn open_all<N: Net, C: Core>(
    alloc: Global,
    net: &mut N,
    round: u32,
    flows: &mut [Flow<C>],
    sends: &mut Vec<Sent>,
) -> Result<u32, FlowFault>
    requires few { length flows.old ≤ 16 }
    requires new { (i : ℕ) (f : Flow C) → slice_get flows.old i ≡ Some f → C.IsNew f.core }
    requires closed { (n : ℕ) → N.open_flow net.old n ≡ None }
    requires room { N.opened net.old + 17 ≤ 2 ^ 32 }
    requires nothing { sends.old.items ≡ [] }
    ensures number { IfOk result (λ number. 0 < length flows.new → number ≡ N.opened net.old) }
    ensures opening { OnOk result (IsOpening C.acts C.HasBegun (N.time net.old) round
        (N.opened net.old) (length flows.new) flows.old flows.new (N.open_flow net.new)
        (N.rows net.old) sends.new.items (N.sent net.old) (N.sent net.new)) }
    ensures opened { OnOk result (N.opened net.new ≡ N.opened net.old + length flows.new) }
    ensures closed { OnErr result ((n : ℕ) → N.open_flow net.new n ≡ None) }
    ensures least { N.opened net.old ≤ N.opened net.new }
    ensures most { N.opened net.new ≤ N.opened net.old + length flows.new }
    ensures time { N.time net.new ≡ N.time net.old }
    ensures rows { N.rows net.new ≡ N.rows net.old }
    ensures cause { HasCauseOr FlowFault.Net (N.faults net.old) (N.faults net.new) result }
{
    let mut first = 0;
    for place in 0..flows.len() {
        match open_one(alloc, net, round, &mut flows[place], sends) {
            Ok(number) => {
                if place == 0 {
                    first = number;
                }
            }
            Err(fault) => {
                close_all(net, first, place);
                return Err(fault);
            }
        }
    }
    Ok(first)
}
