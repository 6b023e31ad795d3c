//! What flows are fed from.

ghost use Rattle.std.specs.Prelude.{◌≡◌, ℕ, List, map, IfOk};
ghost use Rattle.bd_dev.specs.Rows.{Row, arrivals};
ghost use Rattle.bd_dev.specs.declared.net.Arrival.{Arrival};
ghost use Rattle.arrival_player.specs.Spots.{timed_of};

use bd_dev::{Arrival, Bytes, Memory};
use std::alloc::Global;

/// Where an arrival stands, and when it comes.
#[derive(Clone, Copy)]
pub struct Spot {
    /// Milliseconds since the flow's opening.
    pub at: u64,
    /// The number of the feed.
    pub feed: usize,
    /// The number of the arrival in that feed.
    pub part: u32,
}

/// What the flows of a network are fed from: feeds by their numbers, of one or more arrivals each.
pub trait Feeds {
    /// All that comes to flows.
    ghost rows: { Self → List Row };

    /// The arrival at each feed and part.
    ghost arrival: { Self → ℕ → ℕ → Arrival };

    /// Where what comes to each flow of this label in this round stands, in order of time, and what
    /// is of one time in the order of the rows. Or `Memory`.
    fn spots(&self, alloc: Global, round: u32, label: &[u8]) -> Result<Vec<Spot>, Memory>
        ensures { IfOk result (λ found.
            map (timed_of (arrival self.now)) found.items ≡ arrivals (rows self.now) round label.now) };

    /// Makes the arrival of a spot, or answers `Memory`.
    fn make(&self, alloc: Global, spot: Spot) -> Result<Arrival, Memory>
        ensures { IfOk result (λ made. made ≡ arrival self.now spot.feed spot.part) };
}

/// A copy of an arrival, or `Memory`.
pub fn copy_of(alloc: Global, arrival: &Arrival) -> Result<Arrival, Memory>
    ensures { IfOk result (λ copy. copy ≡ arrival.now) }
{
    Ok(match arrival {
        Arrival::Datagram { port, bytes } => Arrival::Datagram {
            port: *port,
            bytes: Bytes::from_slice(alloc, bytes.as_slice())?,
        },
        Arrival::Echo { from, bytes } => Arrival::Echo {
            from: *from,
            bytes: Bytes::from_slice(alloc, bytes.as_slice())?,
        },
        Arrival::Stream(bytes) => Arrival::Stream(Bytes::from_slice(alloc, bytes.as_slice())?),
        Arrival::End => Arrival::End,
        Arrival::Reset => Arrival::Reset,
    })
}
