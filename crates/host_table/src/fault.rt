//! Why a host table is refused.
use edge_io::NoMemory;
use std::alloc::{AllocError, AllocFailed};
use thiserror::Error;

/// Why a host table is refused. Lines are counted from 1.
#[derive(Clone, Copy, Debug, PartialEq, Eq, Error)]
pub enum HostFault {
    /// The line is no address and two policies, or 65536 entries come before it.
    #[error("line {line}: bad host line")]
    BadLine { line: u32 },
    /// The line's network is in a line before it.
    #[error("line {line}: host given twice")]
    Twice { line: u32 },
    /// Memory ran out.
    #[error("no memory")]
    NoMemory,
}

impl From<NoMemory> for HostFault {
    ghost use Rattle.std.specs.Prelude.{◌≡◌};
    ghost use Rattle.host_table.specs.declared.fault.HostFault.TheVariants.{NoMemory as out_of_memory};

    ghost from_gives = { λ _ fault. fault ≡ out_of_memory };

    fn from(_error: NoMemory) -> HostFault {
        HostFault::NoMemory
    }
}
