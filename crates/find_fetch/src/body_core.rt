//! The client that fetches a body.

ghost use Rattle.std.specs.Prelude.{◌≡◌, List, None, Some, IfOk, OnOk};
ghost use Rattle.bd_dev.specs.Rows.{TimedArrival};
ghost use Rattle.waits.specs.Waits.{ComesTo};
ghost use Rattle.find_fetch.specs.Aim.{IsAskable};
ghost use Rattle.find_fetch.specs.Local.{IsWithinLimit};

use crate::fetched::{Fetched, Miss};
use crate::request::{Aim, Way};
use bd_dev::{Arrival, Memory};
use flow::{Core, Outbox};
use std::alloc::Global;
use tftp_client::TftpCore;

/// A client that fetches a body, and does what its inner client does.
#[derive(Drop)]
pub enum BodyCore {
    /// Over TFTP.
    Tftp(TftpCore),
}

impl BodyCore {
    ghost use Rattle.find_fetch.specs.Bodies.{IsNewBody, body_acts, body_result, client_of, outcome_of};

    /// A client for a request, or `Memory`.
    pub fn new(alloc: Global, aim: &Aim) -> Result<BodyCore, Memory>
        requires { IsAskable aim.now.way }
        ensures client { IfOk result (λ core. core ≡ client_of aim.now) }
        ensures new { IfOk result IsNewBody }
        ensures comes_to { IfOk result (λ core. (comes : List TimedArrival)
            → ComesTo body_acts body_result core comes (outcome_of aim.now comes)) }
    {
        match &aim.way {
            Way::Tftp { path } => Ok(BodyCore::Tftp(TftpCore::new(
                alloc,
                aim.port,
                path.as_slice(),
            )?)),
        }
    }

    /// What a client that is done has found: the whole body, or why there is none.
    pub fn result(self) -> Fetched
        requires { body_acts.deadline self ≡ None }
        ensures found { body_result self ≡ Some result }
        ensures within { IsWithinLimit result }
    {
        match self {
            BodyCore::Tftp(core) => match core.result() {
                Ok(body) => Fetched::Body(body),
                Err(miss) => Fetched::Miss(Miss::Tftp(miss)),
            },
        }
    }
}

impl Core for BodyCore {
    ghost use Rattle.find_fetch.specs.Bodies.{HasBodyBegun, IsNewBody, body_acts};
    ghost use Rattle.find_fetch.specs.Laws.{body_lawful};

    ghost acts = { body_acts };

    ghost IsNew = { IsNewBody };

    ghost HasBegun = { HasBodyBegun };

    fn begin(&mut self, out: &mut Outbox) -> Result<(), Memory> {
        match self {
            BodyCore::Tftp(core) => core.begin(out)?,
        }
        Ok(())
    }

    fn arrive(&mut self, at: u64, arrival: &Arrival, out: &mut Outbox) -> Result<(), Memory> {
        match self {
            BodyCore::Tftp(core) => core.arrive(at, arrival, out)?,
        }
        Ok(())
    }

    fn expire(&mut self, at: u64, out: &mut Outbox) -> Result<(), Memory> {
        match self {
            BodyCore::Tftp(core) => core.expire(at, out)?,
        }
        Ok(())
    }

    fn flood(&mut self) {
        match self {
            BodyCore::Tftp(core) => core.flood(),
        }
    }

    fn deadline(&self) -> Option<u64> {
        match self {
            BodyCore::Tftp(core) => core.deadline(),
        }
    }

    ghost lawful = { body_lawful };
}
