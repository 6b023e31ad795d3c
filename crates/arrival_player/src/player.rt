//! The player of arrivals.

ghost use Rattle.std.specs.Prelude.{◌≡◌, ◌+◌, ◌-◌, ◌^◌, ◌<◌, ◌≤◌, ◌++◌, ◌∷◌, [], ℕ, None, length, IfOk, OnOk, OnErr};
ghost use Rattle.bd_dev.specs.Net.{Answers, Closes, IsEarliest, Opens};
ghost use Rattle.arrival_player.specs.Played.{IsPicked, flow_at};

use crate::feeds::Feeds;
use crate::flows::{Flow, advance_at, close_at, earliest, first_open, next_spot};
use bd_dev::{Bytes, Memory, Next};
use std::alloc::Global;
use std::marker::Model;

/// The open flows of a network whose arrivals stand in feeds, and its time.
#[derive(Drop)]
pub struct Player<F: Feeds> {
    feeds: F,
    late: bool,
    time: u64,
    // By their numbers; a closed one is None.
    flows: Vec<Option<Flow>>,
    // All flows before this number are closed.
    shut: usize,
    alloc: Global,
}

impl<F: Feeds> Model for Player<F> {
    ghost use Rattle.arrival_player.specs.Flows.{IsSound, flows_of};
    ghost use Rattle.arrival_player.specs.Played.{Played};

    ghost Value = { Played };

    ghost view = { λ p. record {
      rows = F.rows p.feeds;
      late = p.late;
      time = p.time;
      flows = flows_of p.flows.items;
    } };

    ghost invariant = { λ p.
        IsSound (F.arrival p.feeds) (F.rows p.feeds) p.flows.items p.time p.shut };
}

impl<F: Feeds + Drop> Player<F> {
    /// A player at time 0 with no flow. Among arrivals of one time it gives that of the flow opened
    /// last where `late`, otherwise first.
    pub fn new(alloc: Global, feeds: F, late: bool) -> Player<F>
        ensures { result ≡ record { rows = F.rows feeds; late = late; time = 0; flows = [] } }
    {
        Player {
            feeds,
            late,
            time: 0,
            flows: Vec::new(alloc),
            shut: 0,
            alloc,
        }
    }

    /// The time, in milliseconds.
    pub fn now(&self) -> u64
        ensures { result ≡ self.now.time }
    {
        self.time
    }

    /// How many flows were opened.
    pub fn opened(&self) -> usize
        ensures { result ≡ length self.now.flows }
    {
        self.flows.len()
    }

    /// Opens a flow of this label, and gives its number, or answers `Memory`.
    pub fn open(&mut self, round: u32, label: &[u8]) -> Result<u32, Memory>
        requires { length self.old.flows < 2 ^ 32 - 1 }
        ensures number { IfOk result (λ number. number ≡ length self.old.flows) }
        ensures opens { OnOk result (Opens self.old.time round label.now (length self.old.flows)
            (flow_at self.old.flows) (flow_at self.new.flows)) }
        ensures opened { OnOk result (length self.new.flows ≡ length self.old.flows + 1) }
        ensures unchanged { OnErr result (self.new ≡ self.old) }
        ensures rows { self.new.rows ≡ self.old.rows }
        ensures late { self.new.late ≡ self.old.late }
        ensures time { self.new.time ≡ self.old.time }
    {
        let number = self.flows.len() as u32;
        let flow = Flow {
            since: self.time,
            round,
            label: Bytes::from_slice(self.alloc, label)?,
            given: 0,
            spots: self.feeds.spots(self.alloc, round, label)?,
        };
        push(&mut self.flows, Some(flow))?;
        Ok(number)
    }

    /// Gives an earliest arrival of the open flows that is before `until`, and sets the time to its
    /// time; or, exactly where there is none, `Quiet`, and sets the time to `until`. Or answers
    /// `Memory`.
    pub fn next(&mut self, until: u64) -> Result<Next, Memory>
        requires { self.old.time ≤ until }
        ensures answers { IfOk result (λ next. Answers until
            (flow_at self.old.flows) self.old.time next (flow_at self.new.flows) self.new.time) }
        ensures earliest { IfOk result (λ next.
            IsEarliest until self.old.rows (flow_at self.old.flows) next self.new.time) }
        ensures picked { IfOk result (λ next.
            IsPicked self.old.late self.old.rows (flow_at self.old.flows) next self.new.time) }
        ensures unchanged { OnErr result (self.new ≡ self.old) }
        ensures opened { length self.new.flows ≡ length self.old.flows }
        ensures rows { self.new.rows ≡ self.old.rows }
        ensures late { self.new.late ≡ self.old.late }
    {
        match earliest(&self.flows, self.shut, self.late, until) {
            None => {
                self.time = until;
                Ok(Next::Quiet)
            }
            Some((number, time)) => {
                let spot = next_spot(&self.flows, number);
                let arrival = self.feeds.make(self.alloc, spot)?;
                advance_at(&mut self.flows, number);
                self.time = time;
                Ok(Next::Came {
                    flow: number as u32,
                    arrival,
                })
            }
        }
    }

    /// Closes the flow of this number, if it is open.
    pub fn close(&mut self, flow: u32)
        ensures closes { Closes flow (flow_at self.old.flows) (flow_at self.new.flows) }
        ensures opened { length self.new.flows ≡ length self.old.flows }
        ensures rows { self.new.rows ≡ self.old.rows }
        ensures late { self.new.late ≡ self.old.late }
        ensures time { self.new.time ≡ self.old.time }
    {
        close_at(&mut self.flows, flow as usize);
        self.shut = first_open(&self.flows, self.shut);
    }
}

/// Puts a flow at the end, or answers `Memory` and changes nothing.
fn push(flows: &mut Vec<Option<Flow>>, flow: Option<Flow>) -> Result<(), Memory>
    ensures pushed { OnOk result (flows.new.items ≡ flows.old.items ++ flow ∷ []) }
    ensures unchanged { OnErr result (flows.new.items ≡ flows.old.items) }
{
    flows.push(flow)?;
    Ok(())
}
