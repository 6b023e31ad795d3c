//! A network in memory.

ghost use Rattle.std.specs.Prelude.{◌≡◌, ℕ, ◌+◌, ◌-◌, ◌^◌, ◌<◌, ◌≤◌, ◌↔◌, ◌++◌, ◌∷◌, [], Some, Err, length, map, IfOk, OnOk, OnErr};
ghost use Rattle.std.specs.Option.{ForSome};
ghost use Rattle.bd_dev.specs.Calls.{IsListed, after_call, no_calls};
ghost use Rattle.bd_dev.specs.Faults.{HasCauseOr, is_failed};
ghost use Rattle.bd_dev.specs.Rows.{in_order};
ghost use Rattle.bd_dev.specs.Net.{Answers, Closes, IsEarliest, Opens, Posts};
ghost use Rattle.list_net.specs.Rows.{outgoing_of, row_of};
ghost use Rattle.arrival_player.specs.Played.{IsPicked, flow_at};

use crate::list_feeds::ListFeeds;
use crate::list_row::ListRow;
use arrival_player::Player;
use bd_dev::{Bytes, CallCounter, DevFault, Memory, Net, Next};
use std::alloc::Global;
use std::marker::Model;

/// Bytes that were sent.
#[derive(Drop)]
pub struct ListSend {
    /// The network's time, in milliseconds.
    pub at: u64,
    /// The flow's number.
    pub flow: u32,
    /// The port they went to, or 0.
    pub port: u16,
    /// The bytes.
    pub bytes: Bytes,
}

/// A network that plays rows.
#[derive(Drop)]
pub struct ListNet {
    player: Player<ListFeeds>,
    sent: Vec<ListSend>,
    calls: CallCounter,
    alloc: Global,
}

impl Model for ListNet {
    ghost use Rattle.std.specs.Prelude.{map};
    ghost use Rattle.list_net.specs.Rows.{outgoing_of};
    ghost use Rattle.list_net.specs.Network.{NetInMemory};

    ghost Value = { NetInMemory };

    ghost view = { λ n. record {
      rows = n.player.rows;
      late = n.player.late;
      time = n.player.time;
      flows = n.player.flows;
      sent = map outgoing_of n.sent.items;
      calls = n.calls;
    } };
}

impl ListNet {
    /// A network at time 0 that plays these rows: in order of time, and those of one time in the
    /// order given. Among arrivals of one time it gives that of the flow opened last where `late`,
    /// otherwise first. `fails` has the numbers, from 1, of the calls of `open`, `send` and `next`
    /// that are to fail. Or `Memory`.
    pub fn new(
        alloc: Global,
        rows: Vec<ListRow>,
        late: bool,
        fails: &[u64],
    ) -> Result<ListNet, Memory>
        ensures { IfOk result (λ net. net ≡ record {
          rows = in_order (map row_of rows.items);
          late = late;
          time = 0;
          flows = [];
          sent = [];
          calls = no_calls fails.now;
        }) }
    {
        let feeds = ListFeeds::new(alloc, rows)?;
        Ok(ListNet {
            player: Player::new(alloc, feeds, late),
            sent: Vec::new(alloc),
            calls: CallCounter::new(alloc, fails)?,
            alloc,
        })
    }

    /// What was sent, in order.
    pub fn sent(&self) -> &[ListSend]
        ensures { map outgoing_of result.now ≡ self.now.sent }
    {
        &self.sent
    }
}

impl Net for ListNet {
    ghost use Rattle.arrival_player.specs.Played.{flow_past};

    ghost rows = { λ n. Some n.rows };

    ghost time = { λ n. n.time };

    ghost opened = { λ n. length n.flows };

    ghost open_flow = { λ n. flow_at n.flows };

    ghost sent = { λ n. Some n.sent };

    ghost faults = { λ n. n.calls.faults };

    fn now(&self) -> u64 {
        self.player.now()
    }

    fn open(&mut self, round: u32, label: &[u8]) -> Result<u32, DevFault>
        requires { length self.old.flows < 2 ^ 32 - 1 }
        ensures number { IfOk result (λ number. number ≡ length self.old.flows) }
        ensures opens { OnOk result (Opens self.old.time round label.now (length self.old.flows)
            (flow_at self.old.flows) (flow_at self.new.flows)) }
        ensures opened { OnOk result (length self.new.flows ≡ length self.old.flows + 1) }
        ensures unopened { OnErr result (length self.new.flows ≡ length self.old.flows) }
        ensures unchanged { OnErr result
            ((n : ℕ) → flow_at self.new.flows n ≡ flow_at self.old.flows n) }
        ensures time { self.new.time ≡ self.old.time }
        ensures rows { Some self.new.rows ≡ Some self.old.rows }
        ensures sent { Some self.new.sent ≡ Some self.old.sent }
        ensures cause { HasCauseOr DevFault.Failed
            self.old.calls.faults self.new.calls.faults result }
        ensures late { self.new.late ≡ self.old.late }
        ensures listed { (result ≡ Err DevFault.Failed) ↔ IsListed self.old.calls }
        ensures counted { self.new.calls ≡ after_call self.old.calls (is_failed result) }
    {
        self.calls.next()?;
        let number = self.player.open(round, label)?;
        Ok(number)
    }

    fn send(&mut self, flow: u32, port: u16, bytes: &[u8]) -> Result<(), DevFault>
        ensures sent { OnOk result (Posts (Some self.old.sent) (Some self.new.sent)
            record { at = self.old.time; flow = flow; port = port; bytes = bytes.now }) }
        ensures unsent { OnErr result (Some self.new.sent ≡ Some self.old.sent) }
        ensures opened { length self.new.flows ≡ length self.old.flows }
        ensures flows { (n : ℕ) → flow_at self.new.flows n ≡ flow_at self.old.flows n }
        ensures time { self.new.time ≡ self.old.time }
        ensures rows { Some self.new.rows ≡ Some self.old.rows }
        ensures cause { HasCauseOr DevFault.Failed
            self.old.calls.faults self.new.calls.faults result }
        ensures late { self.new.late ≡ self.old.late }
        ensures listed { (result ≡ Err DevFault.Failed) ↔ IsListed self.old.calls }
        ensures counted { self.new.calls ≡ after_call self.old.calls (is_failed result) }
    {
        self.calls.next()?;
        let send = ListSend {
            at: self.player.now(),
            flow,
            port,
            bytes: Bytes::from_slice(self.alloc, bytes)?,
        };
        push(&mut self.sent, send)?;
        Ok(())
    }

    /// Of arrivals of one time, that of the flow opened last where `late`, otherwise first.
    fn next(&mut self, until: u64) -> Result<Next, DevFault>
        requires { self.old.time ≤ until }
        ensures answers { IfOk result (λ next. Answers until
            (flow_at self.old.flows) self.old.time next (flow_at self.new.flows) self.new.time) }
        ensures earliest { IfOk result (λ next. ForSome (Some self.old.rows)
            (λ told. IsEarliest until told (flow_at self.old.flows) next self.new.time)) }
        ensures picked { IfOk result (λ next.
            IsPicked self.old.late self.old.rows (flow_at self.old.flows) next self.new.time) }
        ensures unchanged { OnErr result
            ((n : ℕ) → flow_at self.new.flows n ≡ flow_at self.old.flows n) }
        ensures unmoved { OnErr result (self.new.time ≡ self.old.time) }
        ensures opened { length self.new.flows ≡ length self.old.flows }
        ensures rows { Some self.new.rows ≡ Some self.old.rows }
        ensures sent { Some self.new.sent ≡ Some self.old.sent }
        ensures cause { HasCauseOr DevFault.Failed
            self.old.calls.faults self.new.calls.faults result }
        ensures late { self.new.late ≡ self.old.late }
        ensures listed { (result ≡ Err DevFault.Failed) ↔ IsListed self.old.calls }
        ensures counted { self.new.calls ≡ after_call self.old.calls (is_failed result) }
    {
        self.calls.next()?;
        let next = self.player.next(until)?;
        Ok(next)
    }

    fn close(&mut self, flow: u32)
        ensures closes { Closes flow (flow_at self.old.flows) (flow_at self.new.flows) }
        ensures opened { length self.new.flows ≡ length self.old.flows }
        ensures time { self.new.time ≡ self.old.time }
        ensures rows { Some self.new.rows ≡ Some self.old.rows }
        ensures sent { Some self.new.sent ≡ Some self.old.sent }
        ensures late { self.new.late ≡ self.old.late }
        ensures calls { self.new.calls ≡ self.old.calls }
        ensures faults { self.new.calls.faults ≡ self.old.calls.faults }
    {
        self.player.close(flow);
    }

    ghost not_yet = { λ net n past. flow_past net.flows n past };
}

/// Puts bytes at the end, or answers `Memory` and changes nothing.
fn push(sent: &mut Vec<ListSend>, send: ListSend) -> Result<(), Memory>
    ensures pushed { OnOk result (sent.new.items ≡ sent.old.items ++ send ∷ []) }
    ensures unchanged { OnErr result (sent.new.items ≡ sent.old.items) }
{
    sent.push(send)?;
    Ok(())
}
