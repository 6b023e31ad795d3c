//! Flows, each with its core.

use crate::cores::Core;
use bd_dev::{Bytes, DevFault, Memory};
use thiserror::Error;

/// A core that runs on a flow of this label.
#[derive(Drop)]
pub struct Flow<C: Core> {
    /// The flow's label, which says what comes to it.
    pub label: Bytes,
    /// The client.
    pub core: C,
}

/// How a run of flows fails.
#[derive(Clone, Copy, Debug, PartialEq, Eq, Error)]
pub enum FlowFault {
    /// The network failed, and counted it.
    #[error("the network failed")]
    Net,
    /// Want of memory.
    #[error("out of memory")]
    Memory,
}

impl From<Memory> for FlowFault {
    ghost use Rattle.std.specs.Prelude.{◌≡◌};
    ghost use Rattle.flow.specs.declared.flows.FlowFault.TheVariants as faults;

    ghost from_gives = { λ _ e. e ≡ faults.Memory };

    fn from(_memory: Memory) -> FlowFault {
        FlowFault::Memory
    }
}

impl From<DevFault> for FlowFault {
    ghost use Rattle.std.specs.Prelude.{◌≡◌};
    ghost use Rattle.flow.specs.Faults.{fault_of};

    ghost from_gives = { λ d e. e ≡ fault_of d };

    fn from(fault: DevFault) -> FlowFault {
        match fault {
            DevFault::Failed => FlowFault::Net,
            DevFault::Memory => FlowFault::Memory,
        }
    }
}
