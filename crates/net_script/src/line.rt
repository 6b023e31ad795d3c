//! What a line of a script says.

use bd_dev::{Arrival, Bytes};

/// The rounds that a line is for.
#[derive(Clone, Copy)]
pub(crate) enum Rounds {
    /// All, 1 to 99.
    All,
    /// This one.
    One(u32),
}

/// What a line says.
#[derive(Drop)]
pub(crate) enum Line {
    /// `iface NAME`: the next interface.
    Iface(Bytes),
    /// `flow R LABEL`: the `at` lines that follow are of this label.
    Flow {
        rounds: Rounds,
        label: Bytes,
    },
    /// `at MS ..`: an arrival, so many milliseconds after the flow's opening.
    At {
        at: u32,
        arrival: Arrival,
    },
    /// `tftp R SERVER:PORT PATH FILE MS`: a TFTP server that gives a file, a block each so many milliseconds.
    Tftp {
        rounds: Rounds,
        label: Bytes,
        file: Bytes,
        every: u32,
    },
}

/// A line with its number in the script, from 1.
#[derive(Drop)]
pub(crate) struct Numbered {
    pub(crate) number: u32,
    pub(crate) line: Line,
}
