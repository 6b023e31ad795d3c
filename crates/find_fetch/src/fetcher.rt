//! What fetches candidates.

ghost use Rattle.std.specs.Prelude.{◌≡◌, ◌≢◌, ℕ, ◌+◌, List, [], ◌∷◌, Option, Err, true, false, IfOk, OnOk, OnErr};
ghost use Rattle.std.specs.Option.{ForSome};
ghost use Rattle.bd_dev.specs.Faults.{HasCauseOr};
ghost use Rattle.url_waterfall.specs.declared.candidate.Candidate.{Candidate};
ghost use Rattle.find_fetch.specs.declared.fetched.Fetched.{Fetched};
ghost use Rattle.find_fetch.specs.Fetching.{AreFetches, Asked, is_local, needs};
ghost use Rattle.find_fetch.specs.Local.{IsWithinLimit};

use crate::fetched::{FetchFault, Fetched};
use std::alloc::Global;
use url_waterfall::Candidate;

/// Gives the bodies of candidates. What it gives of a candidate in a round never changes.
pub trait Fetcher {
    /// What a fetch of a candidate in a round gives, where that is told.
    ghost answer: { Self → ℕ → Candidate → Option Fetched };

    /// The count of faults of its media.
    ghost media_faults: { Self → ℕ };

    /// The count of faults of its network.
    ghost net_faults: { Self → ℕ };

    /// The count of faults of its trace.
    ghost trace_faults: { Self → ℕ };

    /// What contracts see of a network, of media and of a trace.
    ghost OfNet: { Type 0 };

    ghost OfMedia: { Type 0 };

    ghost OfTrace: { Type 0 };

    /// Its network, which is the same where nothing was asked of it.
    ghost net_value: { Self → OfNet };

    /// Its media, which are the same where nothing was asked of them.
    ghost media_value: { Self → OfMedia };

    /// What takes its trace, which is the same where nothing was given to it.
    ghost trace_value: { Self → OfTrace };

    /// From an earlier value to a later one, these fetches were made, one after the other.
    ghost Made: { Self → List Asked → Self → Type 0 };

    /// The same, where the last fetch broke off.
    ghost Broken: { Self → List Asked → Self → Type 0 };

    /// At least so many fetches over the network can still be made.
    ghost Left: { Self → ℕ → Type 0 };

    /// Fetches a candidate in a round: its body, or why there is none. No body has more than 33,554,432 bytes. A
    /// candidate other than a file of a local medium asks for one fetch over the network, and takes at most one; it
    /// leaves the media as they were, and a file of a local medium leaves the network and the trace.
    ///
    /// Answers `Media`, `Net` or `Sink` where that device failed, and counted it, or `Memory`: `Media` only of a file of a
    /// local medium, `Net` and `Sink` only of other candidates. Then the fetch broke off.
    fn fetch(
        &mut self,
        alloc: Global,
        round: u32,
        candidate: &Candidate,
    ) -> Result<Fetched, FetchFault>
        requires { is_local candidate.now ≡ false → Left self.old 1 }
        ensures answer { IfOk result (λ found. ForSome (answer self.old round candidate.now) (λ told. found ≡ told)) }
        ensures same { (r : ℕ) (c : Candidate) → answer self.new r c ≡ answer self.old r c }
        ensures made { OnOk result (Made self.old (record { round = round; candidate = candidate.now } ∷ []) self.new) }
        ensures broken { OnErr result (Broken self.old (record { round = round; candidate = candidate.now } ∷ []) self.new) }
        ensures left { (n : ℕ) → Left self.old (n + needs candidate.now) → Left self.new n }
        ensures local { is_local candidate.now ≡ true → (result ≢ Err FetchFault.Net) × (result ≢ Err FetchFault.Sink) }
        ensures remote { is_local candidate.now ≡ false → result ≢ Err FetchFault.Media }
        ensures offline { is_local candidate.now ≡ true
            → (net_value self.new ≡ net_value self.old) × (trace_value self.new ≡ trace_value self.old) }
        ensures unread { is_local candidate.now ≡ false → media_value self.new ≡ media_value self.old }
        ensures within { IfOk result IsWithinLimit }
        ensures media { HasCauseOr FetchFault.Media (media_faults self.old) (media_faults self.new) result }
        ensures net { HasCauseOr FetchFault.Net (net_faults self.old) (net_faults self.new) result }
        ensures trace { HasCauseOr FetchFault.Sink (trace_faults self.old) (trace_faults self.new) result };

    /// The laws of all fetchers.
    ghost lawful: { AreFetches Made Broken Left };
}
