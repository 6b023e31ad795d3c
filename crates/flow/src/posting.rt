//! Gives a flow's letters to the network.

ghost use Rattle.std.specs.Prelude.{◌≡◌, ℕ, [], ◌∷◌, map, OnOk};
ghost use Rattle.bd_dev.specs.Faults.{HasCauseOr};
ghost use Rattle.flow.specs.Sends.{Files, PostsAll, sent_at};
ghost use Rattle.flow.specs.Running.{ClosesIfDone};

use crate::cores::Core;
use crate::filing::file_in;
use crate::flows::FlowFault;
use crate::letters::{Letter, Outbox};
use crate::sends::Sent;
use bd_dev::{Bytes, Net};
use std::alloc::Global;

/// Sends a letter on a flow, and files it.
fn post_one<N: Net>(
    alloc: Global,
    net: &mut N,
    round: u32,
    flow: u32,
    label: &[u8],
    letter: &Letter,
    sends: &mut Vec<Sent>,
) -> Result<(), FlowFault>
    ensures files { OnOk result (Files (N.time net.old) flow
        (sent_at (N.time net.old) round flow label.now letter.now ∷ [])
        sends.old.items sends.new.items) }
    ensures posts { OnOk result
        (PostsAll (sent_at (N.time net.old) round flow label.now letter.now ∷ [])
        (N.sent net.old) (N.sent net.new)) }
    ensures flows { (n : ℕ) → N.open_flow net.new n ≡ N.open_flow net.old n }
    ensures opened { N.opened net.new ≡ N.opened net.old }
    ensures time { N.time net.new ≡ N.time net.old }
    ensures rows { N.rows net.new ≡ N.rows net.old }
    ensures cause { HasCauseOr FlowFault.Net (N.faults net.old) (N.faults net.new) result }
{
    net.send(flow, letter.port, letter.bytes.as_slice())?;
    let sent = Sent {
        at: net.now(),
        round,
        flow,
        label: Bytes::from_slice(alloc, label)?,
        port: letter.port,
        bytes: Bytes::from_slice(alloc, letter.bytes.as_slice())?,
    };
    file_in(sends, sent)?;
    Ok(())
}

/// Sends all letters on a flow, in their order, and files them.
pub(crate) fn post<N: Net>(
    alloc: Global,
    net: &mut N,
    round: u32,
    flow: u32,
    label: &[u8],
    out: &Outbox,
    sends: &mut Vec<Sent>,
) -> Result<(), FlowFault>
    ensures files { OnOk result (Files (N.time net.old) flow
        (map (sent_at (N.time net.old) round flow label.now) out.now)
        sends.old.items sends.new.items) }
    ensures posts { OnOk result
        (PostsAll (map (sent_at (N.time net.old) round flow label.now) out.now)
        (N.sent net.old) (N.sent net.new)) }
    ensures flows { (n : ℕ) → N.open_flow net.new n ≡ N.open_flow net.old n }
    ensures opened { N.opened net.new ≡ N.opened net.old }
    ensures time { N.time net.new ≡ N.time net.old }
    ensures rows { N.rows net.new ≡ N.rows net.old }
    ensures cause { HasCauseOr FlowFault.Net (N.faults net.old) (N.faults net.new) result }
{
    for letter in out.as_slice() {
        post_one(alloc, net, round, flow, label, letter, sends)?;
    }
    Ok(())
}

/// Closes a flow whose core is done.
pub(crate) fn close_if_done<N: Net, C: Core>(net: &mut N, number: u32, core: &C)
    ensures closes { ClosesIfDone number (C.acts.deadline core.now)
        (N.open_flow net.old) (N.open_flow net.new) }
    ensures opened { N.opened net.new ≡ N.opened net.old }
    ensures time { N.time net.new ≡ N.time net.old }
    ensures rows { N.rows net.new ≡ N.rows net.old }
    ensures sent { N.sent net.new ≡ N.sent net.old }
    ensures faults { N.faults net.new ≡ N.faults net.old }
{
    if core.deadline().is_none() {
        net.close(number);
    }
}
