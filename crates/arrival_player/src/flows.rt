//! The open flows of a network, and which arrival comes first.

ghost use Rattle.std.specs.Prelude.{◌≡◌, ◌≤◌, ◌<◌, None, length, map, slice_set};
ghost use Rattle.arrival_player.specs.Earliest.{FirstBelow, next_time_of, sooner_of};
ghost use Rattle.arrival_player.specs.Flows.{AdvancesAt, AreClosed, IsAt, WaitsAt};

use crate::feeds::Spot;
use bd_dev::Bytes;

/// An open flow.
#[derive(Drop)]
pub(crate) struct Flow {
    /// The time of its opening, in milliseconds.
    pub(crate) since: u64,
    pub(crate) round: u32,
    pub(crate) label: Bytes,
    /// How many of its arrivals were given.
    pub(crate) given: usize,
    // In order of time.
    pub(crate) spots: Vec<Spot>,
}

/// The time at which the next arrival of an open flow comes, or the greatest time where it comes
/// later than that; none where nothing comes to it any more, or it was closed.
fn next_time(flow: &Option<Flow>) -> Option<u64>
    ensures { result ≡ next_time_of flow.now }
{
    match flow {
        None => None,
        Some(flow) => match flow.spots.get(flow.given) {
            None => None,
            Some(spot) => Some(flow.since.saturating_add(spot.at)),
        },
    }
}

/// The best so far, or this flow where its time comes before it, or `late` and at its time.
fn sooner(
    best: Option<(usize, u64)>,
    late: bool,
    until: u64,
    number: usize,
    time: Option<u64>,
) -> Option<(usize, u64)>
    ensures { result ≡ sooner_of best late until number time }
{
    match (best, time) {
        (best, None) => best,
        (None, Some(time)) => {
            if time < until {
                Some((number, time))
            } else {
                None
            }
        }
        (Some((first, least)), Some(time)) => {
            if time < least || (late && time == least) {
                Some((number, time))
            } else {
                Some((first, least))
            }
        }
    }
}

/// The flow to which an arrival comes first and before `until`, and its time: of flows of one time
/// the one opened last where `late`, otherwise first. All flows before `from` are closed.
pub(crate) fn earliest(
    flows: &[Option<Flow>],
    from: usize,
    late: bool,
    until: u64,
) -> Option<(usize, u64)>
    requires { AreClosed flows.now from }
    ensures { FirstBelow late until (map next_time_of flows.now) (length flows.now) result }
{
    let mut best = None;
    let mut number = from;
    while number < flows.len() {
        best = sooner(best, late, until, number, next_time(&flows[number]));
        number += 1;
    }
    best
}

/// Where the next arrival of the open flow of this number stands.
pub(crate) fn next_spot(flows: &[Option<Flow>], number: usize) -> Spot
    requires { WaitsAt flows.now number }
    ensures { IsAt flows.now number result }
{
    match &flows[number] {
        Some(flow) => flow.spots[flow.given],
        None => unreachable!(),
    }
}

/// The open flow of this number was given its next arrival.
pub(crate) fn advance_at(flows: &mut Vec<Option<Flow>>, number: usize)
    requires { WaitsAt flows.old.items number }
    ensures { AdvancesAt flows.old.items flows.new.items number }
{
    match &mut flows[number] {
        Some(flow) => flow.given += 1,
        None => unreachable!(),
    }
}

/// Closes the flow of this number, if there is one.
pub(crate) fn close_at(flows: &mut Vec<Option<Flow>>, number: usize)
    ensures { flows.new.items ≡ slice_set flows.old.items number None }
{
    if number < flows.len() {
        flows[number] = None;
    }
}

/// The number of the first flow from `from` on that is open, or of all flows.
pub(crate) fn first_open(flows: &[Option<Flow>], from: usize) -> usize
    requires { AreClosed flows.now from }
    ensures { AreClosed flows.now result }
{
    let mut number = from;
    while number < flows.len() && flows[number].is_none() {
        number += 1;
    }
    number
}
