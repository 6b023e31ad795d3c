//! The laws of clients that wait.

ghost use Rattle.std.specs.Prelude.{List};
ghost use Rattle.bd_dev.specs.Rows.{Row, TimedArrival, in_order};
ghost use Rattle.waits.specs.Waits.{ComesTo, Exchange, exchange_acts, found_of, new_waiter, outcome};
ghost use Rattle.waits.specs.Laws.{IsTimely};
ghost use Rattle.waits.specs.Places.{Gives, IsSteady};
ghost use Rattle.waits.specs.Sorted.{IsSorted};

/// Alone with what comes, a new client of a timely exchange finds, sends and ends as the exchange's outcome says.
pub fn law_of_outcomes<W, R>()
    ensures { (ex : Exchange W R) → IsTimely ex → (w : W) → (arrivals : List TimedArrival)
        → ComesTo (exchange_acts ex) found_of (new_waiter ex w) arrivals (outcome ex w arrivals) }
{}

/// Of a timely exchange in which an arrival that stays changes nothing, what is found is by the places of the arrivals
/// that decide, of which none is behind the first 131,072.
pub fn law_of_places<W, R>()
    ensures { (ex : Exchange W R) → IsTimely ex → IsSteady ex → (w : W) → (arrivals : List TimedArrival)
        → Gives ex 131072 w 0 arrivals (outcome ex w arrivals).found }
{}

/// What comes to flows is put in order of time, and what comes at one time stays in the order in which it stands.
pub fn law_of_order()
    ensures { (rows : List Row) → IsSorted rows (in_order rows) }
{}
