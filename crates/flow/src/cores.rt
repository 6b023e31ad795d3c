//! A core: the state machine of a network client.

ghost use Rattle.std.specs.Prelude.{◌≡◌, ◌++◌, ◌≤◌, ◌^◌, Some, OnOk, IsSome};
ghost use Rattle.flow.specs.Core.{Acts, AreLawful, IsEarly};

use crate::letters::Outbox;
use bd_dev::{Arrival, Memory};

/// The state machine of a network client, which waits for arrivals and for its next deadline, and
/// is done where it has none. Times are in milliseconds since the opening of its flow. A core whose
/// call answered `Memory` is not used again.
///
/// What each call makes of the core and which letters it puts at the end of `out` are functions of
/// the core and, where the call has them, the time and the arrival. A deadline lies at most a minute
/// after the call that sets it and not before it, and each one that passes is moved on or ends the
/// core, which happens at most eight times where nothing comes.
pub trait Core {
    /// What each call does.
    ghost acts: { Acts Self };

    /// A core that has not begun.
    ghost IsNew: { Self → Type 0 };

    /// A core that has begun.
    ghost HasBegun: { Self → Type 0 };

    /// Begins, at the opening of the flow. Or answers `Memory`.
    fn begin(&mut self, out: &mut Outbox) -> Result<(), Memory>
        requires { IsNew self.old }
        ensures core { OnOk result (self.new ≡ acts.begun self.old) }
        ensures letters { OnOk result (out.new ≡ out.old ++ acts.begun_letters self.old) };

    /// Takes an arrival at a time before the deadline, at most 2^63. Or answers `Memory`.
    fn arrive(&mut self, at: u64, arrival: &Arrival, out: &mut Outbox) -> Result<(), Memory>
        requires begun { HasBegun self.old }
        requires early { IsEarly at (acts.deadline self.old) }
        requires small { at ≤ 2 ^ 63 }
        ensures core { OnOk result (self.new ≡ acts.arrived self.old at arrival.now) }
        ensures letters { OnOk result
            (out.new ≡ out.old ++ acts.arrived_letters self.old at arrival.now) };

    /// Passes its deadline, which is `at`, at most 2^63. Or answers `Memory`.
    fn expire(&mut self, at: u64, out: &mut Outbox) -> Result<(), Memory>
        requires begun { HasBegun self.old }
        requires due { acts.deadline self.old ≡ Some at }
        requires small { at ≤ 2 ^ 63 }
        ensures core { OnOk result (self.new ≡ acts.expired self.old at) }
        ensures letters { OnOk result (out.new ≡ out.old ++ acts.expired_letters self.old at) };

    /// Ends a core that too much has come to. It takes no memory and sends nothing.
    fn flood(&mut self)
        requires begun { HasBegun self.old }
        requires waits { IsSome (acts.deadline self.old) }
        ensures { self.new ≡ acts.flooded self.old };

    /// The time of the next deadline; None exactly where the core is done.
    fn deadline(&self) -> Option<u64>
        ensures { result ≡ acts.deadline self.now };

    /// The laws of all cores.
    ghost lawful: { AreLawful acts IsNew HasBegun };
}
