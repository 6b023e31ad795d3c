//! A network: flows are opened and closed, bytes are sent on them, and arrivals come to them in
//! order of time.

ghost use Rattle.std.specs.Prelude.{◌≡◌, ℕ, ◌+◌, ◌-◌, ◌^◌, ◌<◌, ◌≤◌, List, Option, None, IfOk, OnOk, OnErr};
ghost use Rattle.std.specs.Option.{ForSome};
ghost use Rattle.bd_dev.specs.Faults.{HasCauseOr};
ghost use Rattle.bd_dev.specs.Rows.{Row};
ghost use Rattle.bd_dev.specs.Net.{OpenFlow, Outgoing, Closes, Answers, IsEarliest, Opens, Posts};

use crate::bytes::Bytes;
use crate::faults::DevFault;

/// What comes to a flow.
#[derive(Drop)]
pub enum Arrival {
    /// The bytes of a UDP datagram (RFC 768), from this port.
    Datagram { port: u16, bytes: Bytes },
    /// An ICMPv6 echo message (RFC 4443), from this address.
    Echo { from: [u8; 16], bytes: Bytes },
    /// The next bytes of a TCP stream.
    Stream(Bytes),
    /// The peer closed the stream.
    End,
    /// The stream was reset.
    Reset,
}

/// What a network answers.
#[derive(Drop)]
pub enum Next {
    /// This came to the open flow of this number.
    Came { flow: u32, arrival: Arrival },
    /// Nothing comes before the time that was asked for, which it is now.
    Quiet,
}

/// A network. Its time is in milliseconds, and only `next` moves it. Flows are numbered from 0 in
/// order of opening. All flows of one label in one round see the same arrivals, each from its own
/// opening on.
pub trait Net {
    /// All that comes to flows, where it tells that.
    ghost rows: { Self → Option (List Row) };

    /// The time, in milliseconds.
    ghost time: { Self → ℕ };

    /// How many flows were opened.
    ghost opened: { Self → ℕ };

    /// The open flow of each number.
    ghost open_flow: { Self → ℕ → Option OpenFlow };

    /// All that was sent, in order, where it tells that.
    ghost sent: { Self → Option (List Outgoing) };

    /// The count of its faults.
    ghost faults: { Self → ℕ };

    /// The time, in milliseconds.
    fn now(&self) -> u64
        ensures { result ≡ time self.now };

    /// Opens a flow of this label, and gives its number. Answers `Memory` where there is no memory
    /// for it, or fails and counts it.
    fn open(&mut self, round: u32, label: &[u8]) -> Result<u32, DevFault>
        requires { opened self.old < 2 ^ 32 - 1 }
        ensures number { IfOk result (λ number. number ≡ opened self.old) }
        ensures opens { OnOk result (Opens (time self.old) round label.now (opened self.old)
            (open_flow self.old) (open_flow self.new)) }
        ensures opened { OnOk result (opened self.new ≡ opened self.old + 1) }
        ensures unopened { OnErr result (opened self.new ≡ opened self.old) }
        ensures unchanged { OnErr result ((n : ℕ) → open_flow self.new n ≡ open_flow self.old n) }
        ensures time { time self.new ≡ time self.old }
        ensures rows { rows self.new ≡ rows self.old }
        ensures sent { sent self.new ≡ sent self.old }
        ensures cause { HasCauseOr DevFault.Failed (faults self.old) (faults self.new) result };

    /// Sends bytes on a flow, to this port, or to 0 where the flow has no ports. Answers `Memory`
    /// where there is no memory for that, or fails and counts it: then nothing is sent.
    fn send(&mut self, flow: u32, port: u16, bytes: &[u8]) -> Result<(), DevFault>
        ensures sent { OnOk result (Posts (sent self.old) (sent self.new)
            record { at = time self.old; flow = flow; port = port; bytes = bytes.now }) }
        ensures unsent { OnErr result (sent self.new ≡ sent self.old) }
        ensures opened { opened self.new ≡ opened self.old }
        ensures flows { (n : ℕ) → open_flow self.new n ≡ open_flow self.old n }
        ensures time { time self.new ≡ time self.old }
        ensures rows { rows self.new ≡ rows self.old }
        ensures cause { HasCauseOr DevFault.Failed (faults self.old) (faults self.new) result };

    /// Gives an earliest arrival of the open flows that is before `until`, and sets the time to its
    /// time; or, exactly where there is none, `Quiet`, and sets the time to `until`. So a deadline
    /// at `until` goes before an arrival of that time. Of arrivals at one time it may give any
    /// flow's, and of one flow's the one that stands first. Answers `Memory` where there is no
    /// memory for it, or fails and counts it: then the time stays.
    fn next(&mut self, until: u64) -> Result<Next, DevFault>
        requires { time self.old ≤ until }
        ensures answers { IfOk result (λ next. Answers until
            (open_flow self.old) (time self.old) next (open_flow self.new) (time self.new)) }
        ensures earliest { IfOk result (λ next. ForSome (rows self.old)
            (λ told. IsEarliest until told (open_flow self.old) next (time self.new))) }
        ensures unchanged { OnErr result ((n : ℕ) → open_flow self.new n ≡ open_flow self.old n) }
        ensures unmoved { OnErr result (time self.new ≡ time self.old) }
        ensures opened { opened self.new ≡ opened self.old }
        ensures rows { rows self.new ≡ rows self.old }
        ensures sent { sent self.new ≡ sent self.old }
        ensures cause { HasCauseOr DevFault.Failed (faults self.old) (faults self.new) result };

    /// Closes the flow of this number, if it is open.
    fn close(&mut self, flow: u32)
        ensures closes { Closes flow (open_flow self.old) (open_flow self.new) }
        ensures opened { opened self.new ≡ opened self.old }
        ensures time { time self.new ≡ time self.old }
        ensures rows { rows self.new ≡ rows self.old }
        ensures sent { sent self.new ≡ sent self.old }
        ensures faults { faults self.new ≡ faults self.old };

    /// A number that was not given yet is no open flow's.
    ghost not_yet: { (net : Self) (n : ℕ) → opened net ≤ n → open_flow net n ≡ None };
}
