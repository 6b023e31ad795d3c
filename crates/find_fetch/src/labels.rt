//! The labels of the flows that bodies come on.

ghost use Rattle.std.specs.Prelude.{◌≡◌, IfOk};
ghost use Rattle.find_fetch.specs.Aim.{label_of};

use crate::request::{Aim, Way};
use bd_dev::{Bytes, Memory};
use flow_labels::{server_text, tftp_label};
use std::alloc::Global;

/// The label of the flow of a request to the host, which is an address as labels show it: `tftp HOST:PORT PATH`. Or
/// `Memory`.
pub fn body_label(alloc: Global, aim: &Aim, host: &[u8]) -> Result<Bytes, Memory>
    ensures { IfOk result (λ label. label ≡ label_of aim.now host.now) }
{
    let Way::Tftp { path } = &aim.way;
    let server = server_text(alloc, host, aim.port)?;
    tftp_label(alloc, server.as_slice(), path.as_slice())
}
