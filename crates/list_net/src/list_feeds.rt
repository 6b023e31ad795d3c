//! The rows of a network, as what its flows are fed from.

ghost use Rattle.std.specs.Prelude.{◌≡◌, filter, map, IfOk, OnOk, ◌++◌, ◌∷◌, []};
ghost use Rattle.bd_dev.specs.Rows.{in_order, is_for, timed_of as timed_row};
ghost use Rattle.arrival_player.specs.Spots.{timed_of};
ghost use Rattle.list_net.specs.Rows.{arrival_at, row_of};

use crate::list_row::{ListRow, is_for, ordered};
use arrival_player::{Feeds, Spot, copy_of};
use bd_dev::{Arrival, Memory};
use std::alloc::Global;
use std::marker::Model;

/// Rows in order of time. Each is a feed of one arrival.
#[derive(Drop)]
pub(crate) struct ListFeeds {
    rows: Vec<ListRow>,
}

impl Model for ListFeeds {
    ghost use Rattle.std.specs.Prelude.{List, map, ◌≡◌};
    ghost use Rattle.bd_dev.specs.Rows.{Row, in_order};
    ghost use Rattle.list_net.specs.Rows.{row_of};

    ghost Value = { List Row };

    ghost view = { λ f. map row_of f.rows.items };

    ghost invariant = { λ f. in_order (map row_of f.rows.items) ≡ map row_of f.rows.items };
}

impl ListFeeds {
    /// These rows in order of time, those of one time in the order given, or `Memory`.
    pub(crate) fn new(alloc: Global, rows: Vec<ListRow>) -> Result<ListFeeds, Memory>
        ensures { IfOk result (λ feeds. feeds ≡ in_order (map row_of rows.items)) }
    {
        Ok(ListFeeds {
            rows: ordered(alloc, rows)?,
        })
    }
}

impl Feeds for ListFeeds {
    ghost rows = { λ rows. rows };

    ghost arrival = { arrival_at };

    fn spots(&self, alloc: Global, round: u32, label: &[u8]) -> Result<Vec<Spot>, Memory> {
        let spots = spots_of(alloc, &self.rows, round, label)?;
        Ok(spots)
    }

    fn make(&self, alloc: Global, spot: Spot) -> Result<Arrival, Memory> {
        match self.rows.get(spot.feed) {
            Some(row) => copy_of(alloc, &row.arrival),
            None => Ok(Arrival::End),
        }
    }
}

/// Where the rows for this label in this round stand, or `Memory`.
fn spots_of(alloc: Global, rows: &[ListRow], round: u32, label: &[u8]) -> Result<Vec<Spot>, Memory>
    ensures { IfOk result (λ found. map (timed_of (arrival_at (map row_of rows.now))) found.items
        ≡ map timed_row (filter (is_for round label.now) (map row_of rows.now))) }
{
    let mut spots = Vec::new(alloc);
    for (feed, row) in rows.iter().enumerate() {
        if is_for(row, round, label) {
            push(
                &mut spots,
                Spot {
                    at: row.at,
                    feed,
                    part: 0,
                },
            )?;
        }
    }
    Ok(spots)
}

/// Puts a spot at the end, or answers `Memory`.
fn push(spots: &mut Vec<Spot>, spot: Spot) -> Result<(), Memory>
    ensures { OnOk result (spots.new.items ≡ spots.old.items ++ spot ∷ []) }
{
    spots.push(spot)?;
    Ok(())
}
