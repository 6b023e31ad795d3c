//! A sink over standard output.

ghost use Rattle.std.specs.Prelude.{◌≡◌, None};

use crate::calls::write_some;
use crate::faults::FaultCount;
use bd_dev::{Failed, Sink};
use std::io;
use std::marker::Model;

/// Standard output, of which no byte is kept back. A clause sees it as its count of faults.
#[derive(Drop)]
pub struct OutSink<'a, R> {
    rt: &'a R,
    faults: FaultCount,
}

impl<'a, R> Model for OutSink<'a, R> {
    ghost use Rattle.std.specs.Prelude.{ℕ};

    ghost Value = { ℕ };

    ghost view = { λ s. s.faults };
}

impl<'a, R> OutSink<'a, R> {
    /// The standard output of the runtime. No fault is counted yet.
    pub fn new(rt: &'a R) -> OutSink<'a, R>
        ensures { result ≡ 0 }
    {
        OutSink {
            rt,
            faults: FaultCount::new(),
        }
    }
}

impl<'a, R: Print> Sink for OutSink<'a, R> {
    ghost taken = { λ _. None };

    ghost faults = { λ faults. faults };

    /// One write. An error is a fault, and so is an output that takes nothing of a nonempty piece.
    fn write(&mut self, bytes: &[u8]) -> Result<usize, Failed> {
        let written = write_some(&mut io::writer(self.rt), bytes);
        self.faults.counted(written)
    }
}
