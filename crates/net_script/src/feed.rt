//! What a line gives to flows, once the file that it serves was read.

ghost use Rattle.std.specs.Prelude.{◌≡◌, ◌≤◌, length, IfOk};

use crate::line::Rounds;
use bd_dev::{Arrival, Bytes, Memory};
use std::alloc::Global;
use std::marker::Model;
use std::rc::Rc;

/// A served file, of at most 268,435,456 bytes. The lines that serve it hold its bytes together.
#[derive(Drop)]
pub(crate) struct Body {
    bytes: Rc<Bytes>,
}

impl Model for Body {
    ghost use Rattle.std.specs.Prelude.{List, ℕ, ◌≤◌, length};

    ghost Value = { List ℕ };

    ghost view = { λ b. b.bytes.value };

    ghost invariant = { λ b. length b.bytes.value ≤ 268435456 };
}

impl Body {
    pub(crate) fn new(alloc: Global, bytes: Bytes) -> Result<Body, Memory>
        requires { length bytes ≤ 268435456 }
        ensures { IfOk result (λ body. body ≡ bytes) }
    {
        Ok(Body {
            bytes: Rc::new(alloc, bytes)?,
        })
    }

    /// The same file once more, for another line. Or `Memory`, where too many hold it.
    pub(crate) fn again(&self) -> Result<Body, Memory>
        ensures { IfOk result (λ body. body ≡ self.now) }
    {
        Ok(Body {
            bytes: self.bytes.clone()?,
        })
    }

    pub(crate) fn as_slice(&self) -> &[u8]
        ensures bytes { result.now ≡ self.now }
        ensures few { length result.now ≤ 268435456 }
    {
        Rc::as_ref(&self.bytes).as_slice()
    }
}

/// What a line serves to each flow of its label.
#[derive(Drop)]
pub(crate) enum What {
    /// The blocks of a file, one each so many milliseconds.
    Blocks { every: u32, body: Body },
}

/// What a line gives to flows.
#[derive(Drop)]
pub(crate) enum Feed {
    /// The `At`s that follow are for the flows of this label.
    Flow {
        rounds: Rounds,
        label: Bytes,
    },
    /// An arrival, so many milliseconds after the flow's opening.
    At {
        at: u32,
        arrival: Arrival,
    },
    /// What is served to the flows of this label.
    Serves {
        rounds: Rounds,
        label: Bytes,
        what: What,
    },
}
