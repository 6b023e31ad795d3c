//! A core that asks, asks again, and sends back what comes.

ghost use Rattle.flow_probe.specs.Probe.{HasProbeBegun, IsNewProbe, probe_acts};

use bd_dev::{Arrival, Memory};
use flow::{Core, Outbox};

/// Asks at once and then every two seconds, three times in all, and is done two seconds after the
/// last. Stream bytes that come go back, and two seconds after them it asks again. The end of the
/// stream ends it; all else that comes changes nothing.
#[derive(Drop)]
pub struct Probe {
    due: Option<u64>,
    left: u64,
}

impl Probe {
    /// A core that has not begun.
    pub fn new() -> Probe
        ensures { IsNewProbe result }
    {
        Probe { due: None, left: 0 }
    }
}

impl Core for Probe {
    ghost use Rattle.flow_probe.specs.Laws.{probe_lawful};

    ghost acts = { probe_acts };

    ghost IsNew = { IsNewProbe };

    ghost HasBegun = { HasProbeBegun };

    fn begin(&mut self, out: &mut Outbox) -> Result<(), Memory> {
        out.push(7, b"ask")?;
        self.due = Some(2000);
        self.left = 3;
        Ok(())
    }

    fn arrive(&mut self, at: u64, arrival: &Arrival, out: &mut Outbox) -> Result<(), Memory> {
        match arrival {
            Arrival::Stream(bytes) => {
                out.push(0, bytes.as_slice())?;
                self.due = Some(at + 2000);
                self.left = 3;
            }
            Arrival::End => {
                self.due = None;
                self.left = 0;
            }
            _ => {}
        }
        Ok(())
    }

    fn expire(&mut self, at: u64, out: &mut Outbox) -> Result<(), Memory> {
        if self.left <= 1 {
            self.due = None;
            self.left = 0;
        } else {
            out.push(7, b"ask")?;
            self.due = Some(at + 2000);
            self.left -= 1;
        }
        Ok(())
    }

    fn flood(&mut self) {
        self.due = None;
        self.left = 0;
    }

    fn deadline(&self) -> Option<u64> {
        self.due
    }

    ghost lawful = { probe_lawful };
}
