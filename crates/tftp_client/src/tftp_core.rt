//! The client.

ghost use Rattle.std.specs.Prelude.{◌≡◌, ◌≤◌, ◌^◌, ◌++◌, ◌∷◌, [], None, Some, length, IfOk, OnOk};
ghost use Rattle.tftp_client.specs.Packets.{IsPath, unknown_transfer};
ghost use Rattle.tftp_client.specs.Transfer.{letter};

use crate::packets::{Meaning, ack, read_meaning};
use bd_dev::{Arrival, Bytes, Memory};
use flow::{Core, Outbox};
use std::alloc::Global;
use std::marker::Model;
use thiserror::Error;

/// Why a transfer gives no body.
#[derive(Clone, Copy, Debug, PartialEq, Eq, Error)]
pub enum TftpMiss {
    /// The server refused, with this code (RFC 1350, appendix).
    #[error("the server refused, with code {0}")]
    Refused(u16),
    /// The next block did not come within 6 seconds.
    #[error("no answer")]
    Silent,
    /// The file is longer than 33,554,432 bytes.
    #[error("the file is too large")]
    TooLarge,
    /// Too much came.
    #[error("too many packets")]
    Flooded,
}

/// How a transfer ended.
#[derive(Clone, Copy)]
enum Ending {
    Whole,
    Missed(TftpMiss),
}

/// The most bytes that a body may have.
const LIMIT: usize = 33554432;

/// Milliseconds between one packet and its repetition.
const PAUSE: u64 = 2000;

/// How often a packet goes again where nothing comes.
const RETRIES: u8 = 2;

/// A client that reads one file. It asks for it, and takes the blocks in their order from the port
/// that sends the first one, each less than 6 seconds after the one before. It acknowledges each
/// block, again where a block comes again, and repeats what it sent last after 2 and 4 seconds.
#[derive(Drop)]
pub struct TftpCore {
    port: u16,
    request: Bytes,
    // The port of the first block.
    chosen: Option<u16>,
    // Of the last block taken, or 0.
    number: u16,
    body: Bytes,
    // When the wait for the next block began, and how many of its timers have passed.
    began: u64,
    passed: u8,
    ending: Option<Ending>,
}

impl Model for TftpCore {
    ghost use Rattle.std.specs.Prelude.{◌≤◌, ◌^◌, ℕ, List, Result, length};
    ghost use Rattle.waits.specs.Waits.{Waiter};
    ghost use Rattle.tftp_client.specs.declared.tftp_core.TftpMiss.{TftpMiss};
    ghost use Rattle.tftp_client.specs.Transfer.{Taken, ahead, found_by, wait_from};

    ghost Value = { Waiter Taken (Result (List ℕ) TftpMiss) };

    ghost view = { λ c. record {
      known = record { port = c.port; asking = c.request; chosen = c.chosen; number = c.number; bytes = c.body };
      again = ahead c.began c.passed c.ending;
      over = (wait_from c.began).over;
      found = found_by c.ending c.body;
    } };

    ghost invariant = { λ c. (c.passed ≤ 2) × (c.began ≤ 2 ^ 63) × (length c.body ≤ 33554432) };
}

impl TftpCore {
    ghost use Rattle.std.specs.Prelude.{List};
    ghost use Rattle.bd_dev.specs.Rows.{TimedArrival};
    ghost use Rattle.waits.specs.Waits.{ComesTo, arrived_by, found_of, letters_of, new_waiter, outcome};
    ghost use Rattle.tftp_client.specs.Places.{IsBodyOf};
    ghost use Rattle.tftp_client.specs.Transfer.{hears_block, last_sent, none_taken, tftp, tftp_acts};

    /// A client that will ask this port for this path, or `Memory`.
    pub fn new(alloc: Global, port: u16, path: &[u8]) -> Result<TftpCore, Memory>
        requires { IsPath path.now }
        ensures client { IfOk result (λ client. client ≡ new_waiter tftp (none_taken port path.now)) }
        ensures comes_to { IfOk result (λ client. (arrivals : List TimedArrival)
            → ComesTo tftp_acts found_of client arrivals (outcome tftp (none_taken port path.now) arrivals)) }
        ensures places { IfOk result (λ client. (arrivals : List TimedArrival)
            → IsBodyOf port path.now arrivals
            (outcome tftp (none_taken port path.now) arrivals).found) }
    {
        let mut request = Bytes::from_slice(alloc, b"\0\x01")?;
        request.push_slice(path)?;
        request.push_slice(b"\0octet\0")?;
        Ok(TftpCore {
            port,
            request,
            chosen: None,
            number: 0,
            body: Bytes::from_slice(alloc, b"")?,
            began: 0,
            passed: 0,
            ending: None,
        })
    }

    /// What a client that is done has found: the whole body, of at most 33,554,432 bytes, or why there is none.
    pub fn result(self) -> Result<Bytes, TftpMiss>
        requires { tftp_acts.deadline self ≡ None }
        ensures found { self.found ≡ Some result }
        ensures within { IfOk result (λ body. length body ≤ 33554432) }
    {
        match self.ending {
            Some(Ending::Whole) => Ok(self.body),
            Some(Ending::Missed(miss)) => Err(miss),
            None => unreachable!(),
        }
    }

    /// Sends the request, or the acknowledgment of the last block.
    fn send_last(&self, out: &mut Outbox) -> Result<(), Memory>
        ensures { OnOk result
            (out.new ≡ out.old ++ last_sent self.now.known self.now.known.chosen ∷ []) }
    {
        match self.chosen {
            None => out.push(self.port, self.request.as_slice())?,
            Some(chosen) => out.push(chosen, &ack(self.number))?,
        }
        Ok(())
    }

    /// Takes the next block, unless the body would pass its limit.
    fn take(&mut self, at: u64, port: u16, block: &[u8], out: &mut Outbox) -> Result<(), Memory>
        requires waits { self.old.found ≡ None }
        requires small { at ≤ 2 ^ 63 }
        requires short { length block.now ≤ 512 }
        ensures core { OnOk result
            (self.new ≡ arrived_by tftp self.old at (hears_block self.old.known port block.now)) }
        ensures letters { OnOk result
            (out.new ≡ out.old ++ letters_of (hears_block self.old.known port block.now)) }
    {
        if self.body.as_slice().len() > LIMIT - block.len() {
            self.ending = Some(Ending::Missed(TftpMiss::TooLarge));
            return Ok(());
        }
        self.body.push_slice(block)?;
        self.number = self.number.wrapping_add(1);
        self.chosen = Some(port);
        if block.len() < 512 {
            self.ending = Some(Ending::Whole);
        } else {
            self.began = at;
            self.passed = 0;
        }
        out.push(port, &ack(self.number))?;
        Ok(())
    }
}

/// Tells a port that no transfer is open with it (RFC 1350, section 4).
#[tactic(auto, unfolding(crate::specs::Packets::unknown_transfer))]
fn tell_stranger(port: u16, out: &mut Outbox) -> Result<(), Memory>
    ensures { OnOk result (out.new ≡ out.old ++ letter port unknown_transfer ∷ []) }
{
    out.push(port, b"\0\x05\0\x05Unknown transfer ID\0")?;
    Ok(())
}

impl Core for TftpCore {
    ghost use Rattle.waits.specs.Laws.{HasWaiterBegun, IsNewWaiter, exchange_lawful};
    ghost use Rattle.tftp_client.specs.Transfer.{tftp, tftp_acts, tftp_timely};

    ghost acts = { tftp_acts };

    ghost IsNew = { IsNewWaiter tftp };

    ghost HasBegun = { HasWaiterBegun };

    fn begin(&mut self, out: &mut Outbox) -> Result<(), Memory> {
        self.send_last(out)?;
        Ok(())
    }

    fn arrive(&mut self, at: u64, arrival: &Arrival, out: &mut Outbox) -> Result<(), Memory> {
        if let Arrival::Datagram { port, bytes } = arrival {
            let packet = bytes.as_slice();
            match read_meaning(self.chosen, self.number, *port, packet) {
                Meaning::Next => {
                    let (_, block) = packet.split_at(4);
                    self.take(at, *port, block, out)?;
                }
                Meaning::Repeat => out.push(*port, &ack(self.number))?,
                Meaning::Refusal(code) => {
                    self.ending = Some(Ending::Missed(TftpMiss::Refused(code)));
                }
                Meaning::Stranger => tell_stranger(*port, out)?,
                Meaning::Nothing => {}
            }
        }
        Ok(())
    }

    fn expire(&mut self, at: u64, out: &mut Outbox) -> Result<(), Memory> {
        let _at = at;
        if self.passed < RETRIES {
            self.passed += 1;
            self.send_last(out)?;
        } else {
            self.ending = Some(Ending::Missed(TftpMiss::Silent));
        }
        Ok(())
    }

    fn flood(&mut self) {
        self.ending = Some(Ending::Missed(TftpMiss::Flooded));
    }

    #[tactic(auto, using(crate::proofs::Waiting::next_timer))]
    fn deadline(&self) -> Option<u64> {
        match self.ending {
            None => Some(self.began + (u64::from(self.passed) + 1) * PAUSE),
            Some(_) => None,
        }
    }

    ghost lawful = { exchange_lawful tftp tftp_timely };
}
