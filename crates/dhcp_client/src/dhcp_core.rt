//! The client.

ghost use Rattle.std.specs.Prelude.{◌≡◌, ◌≤◌, ◌^◌, ◌++◌, ◌∷◌, [], None, Some, length, IfOk, OnOk};
ghost use Rattle.std.specs.Option.{option_map};
ghost use Rattle.std.specs.Result.{result_ok};
ghost use Rattle.dhcp_msg.specs.Reading.{reading};
ghost use Rattle.dhcp_lease.specs.LeaseView.{terms_of};

use crate::asking::{make_packet, read_xid};
use crate::meaning::{Meaning, read_meaning};
use crate::offer::Offer;
use bd_dev::{Arrival, Bytes, Memory};
use bd_text::Mac;
use dhcp_lease::{Lease, read_lease};
use dhcp_msg::{DhcpFault, Message, decode};
use flow::{Core, Outbox};
use std::alloc::Global;
use std::marker::Model;

/// The port of servers (RFC 2131, section 4.1).
const SERVER_PORT: u16 = 67;

/// Milliseconds from the beginning of a wait to each repetition, and to its end.
const PAUSES: [u64; 4] = [4000, 12000, 28000, 60000];

/// How often a packet goes again where nothing comes.
const RETRIES: u8 = 3;

/// How a client ended.
#[derive(Drop)]
enum Ending {
    Leased(Lease),
    Unleased,
}

/// A client that asks for a lease. It asks what is offered, takes the first offer that fits, and asks its server for the
/// lease. Each packet goes again 4, 12 and 28 seconds after its wait began, and after 60 seconds there is no lease.
#[derive(Drop)]
pub struct DhcpCore {
    alloc: Global,
    mac: Mac,
    xid: u32,
    platform: Bytes,
    // The offer that was taken.
    offer: Option<Offer>,
    // When the wait began, and how many of its timers have passed.
    began: u64,
    passed: u8,
    ending: Option<Ending>,
}

impl Model for DhcpCore {
    ghost use Rattle.std.specs.Prelude.{◌≤◌, ◌^◌, Option, length};
    ghost use Rattle.waits.specs.Waits.{Waiter};
    ghost use Rattle.dhcp_lease.specs.Lease.{Terms};
    ghost use Rattle.dhcp_client.specs.Leasing.{Known, ahead, found_by, wait_from};

    ghost Value = { Waiter Known (Option Terms) };

    ghost view = { λ c. record {
      known = record { mac = c.mac; xid = c.xid; platform = c.platform; offer = c.offer };
      again = ahead c.began c.passed c.ending;
      over = (wait_from c.began).over;
      found = found_by c.ending;
    } };

    ghost invariant = { λ c. (c.passed ≤ 3) × (c.began ≤ 2 ^ 63) × (length c.platform ≤ 200) };
}

/// The message that some bytes are, where they are one. Or answers `Memory`.
fn read_message(alloc: Global, bytes: &[u8]) -> Result<Option<Message>, Memory>
    ensures { IfOk result (λ message. message ≡ result_ok (reading bytes.now)) }
{
    match decode(alloc, bytes) {
        Ok(message) => Ok(Some(message)),
        Err(DhcpFault::Memory) => Err(Memory),
        Err(_) => Ok(None),
    }
}

impl DhcpCore {
    ghost use Rattle.std.specs.Prelude.{List};
    ghost use Rattle.bd_dev.specs.Rows.{TimedArrival};
    ghost use Rattle.waits.specs.Waits.{ComesTo, arrived_by, found_of, letters_of, new_waiter, outcome};
    ghost use Rattle.dhcp_client.specs.Places.{Leases};
    ghost use Rattle.dhcp_client.specs.Leasing.{asked_letter, dhcp, dhcp_acts, hears_message, none_offered};

    /// A client for the interface with this Ethernet address, on a board of this platform, in this round. Or `Memory`.
    ///
    /// Sources: RFC 2131, sections 3.1, 4.1 and 4.4.1; RFC 2132, sections 9.1, 9.6 to 9.8 and 9.13. The times, the number
    /// of the messages and the vendor class are this project's.
    pub fn new(alloc: Global, mac: Mac, platform: &[u8], round: u32) -> Result<DhcpCore, Memory>
        requires { length platform.now ≤ 200 }
        ensures client { IfOk result (λ client. client ≡ new_waiter dhcp (none_offered mac platform.now round)) }
        ensures comes_to { IfOk result (λ client. (arrivals : List TimedArrival)
            → ComesTo dhcp_acts found_of client arrivals
            (outcome dhcp (none_offered mac platform.now round) arrivals)) }
        ensures places { IfOk result (λ client. (arrivals : List TimedArrival)
            → Leases (none_offered mac platform.now round) arrivals
            (outcome dhcp (none_offered mac platform.now round) arrivals).found) }
    {
        Ok(DhcpCore {
            alloc,
            mac,
            xid: read_xid(mac, round),
            platform: Bytes::from_slice(alloc, platform)?,
            offer: None,
            began: 0,
            passed: 0,
            ending: None,
        })
    }

    /// The lease that a client that is done has, if it got one.
    pub fn result(self) -> Option<Lease>
        requires { dhcp_acts.deadline self ≡ None }
        ensures { self.found ≡ Some (option_map terms_of result) }
    {
        let DhcpCore { ending, .. } = self;
        match ending {
            Some(Ending::Leased(lease)) => Some(lease),
            Some(Ending::Unleased) => None,
            None => unreachable!(),
        }
    }

    /// Sends what is asked.
    fn send(&self, out: &mut Outbox) -> Result<(), Memory>
        ensures { OnOk result (out.new ≡ out.old ++ asked_letter self.now.known ∷ []) }
    {
        let packet = make_packet(
            self.alloc,
            self.mac,
            self.xid,
            self.platform.as_slice(),
            self.offer,
        )?;
        out.push(SERVER_PORT, packet.as_slice())?;
        Ok(())
    }

    /// Takes a message.
    fn hear(&mut self, at: u64, message: &Message, out: &mut Outbox) -> Result<(), Memory>
        requires waits { self.old.found ≡ None }
        requires small { at ≤ 2 ^ 63 }
        ensures core { OnOk result (self.new ≡ arrived_by dhcp self.old at (hears_message self.old.known message.now)) }
        ensures letters { OnOk result (out.new ≡ out.old ++ letters_of (hears_message self.old.known message.now)) }
    {
        match read_meaning(self.mac, self.xid, self.offer, message) {
            Meaning::Offered(offer) => {
                self.offer = Some(offer);
                self.began = at;
                self.passed = 0;
                self.send(out)?;
            }
            Meaning::Granted(server) => {
                let lease = read_lease(self.alloc, message, server)?;
                self.ending = Some(Ending::Leased(lease));
            }
            Meaning::Refused => self.ending = Some(Ending::Unleased),
            Meaning::Nothing => {}
        }
        Ok(())
    }
}

impl Core for DhcpCore {
    ghost use Rattle.waits.specs.Laws.{HasWaiterBegun, IsNewWaiter, exchange_lawful};
    ghost use Rattle.dhcp_client.specs.Leasing.{dhcp, dhcp_acts, dhcp_timely};

    ghost acts = { dhcp_acts };

    ghost IsNew = { IsNewWaiter dhcp };

    ghost HasBegun = { HasWaiterBegun };

    fn begin(&mut self, out: &mut Outbox) -> Result<(), Memory> {
        self.send(out)?;
        Ok(())
    }

    fn arrive(&mut self, at: u64, arrival: &Arrival, out: &mut Outbox) -> Result<(), Memory> {
        if let Arrival::Datagram { bytes, .. } = arrival {
            if let Some(message) = read_message(self.alloc, bytes.as_slice())? {
                self.hear(at, &message, out)?;
            }
        }
        Ok(())
    }

    fn expire(&mut self, at: u64, out: &mut Outbox) -> Result<(), Memory> {
        let _at = at;
        if self.passed < RETRIES {
            self.passed += 1;
            self.send(out)?;
        } else {
            self.ending = Some(Ending::Unleased);
        }
        Ok(())
    }

    fn flood(&mut self) {
        self.ending = Some(Ending::Unleased);
    }

    #[tactic(auto, using(crate::proofs::Waiting::next_timer))]
    fn deadline(&self) -> Option<u64> {
        match self.ending {
            None => Some(self.began + PAUSES[usize::from(self.passed)]),
            Some(_) => None,
        }
    }

    ghost lawful = { exchange_lawful dhcp dhcp_timely };
}
