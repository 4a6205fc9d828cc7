//! Why texts don't all reach the sink.
ghost use Rattle.std.specs.Prelude.{◌≡◌};

use edge_io::NoMemory;
use flow_lanes::BatchFault;

/// Why the texts of alerts are not all written.
#[derive(Clone, Copy, Debug)]
pub enum WriteFault {
    /// The sink failed.
    Unwritten,
    /// Memory ran out.
    NoMemory,
}

impl From<NoMemory> for WriteFault {
    ghost use Rattle.alert_lines.specs.declared.fault.WriteFault.TheVariants.{NoMemory as out_of_memory};

    ghost from_gives = { λ _ fault. fault ≡ out_of_memory };

    fn from(_error: NoMemory) -> WriteFault {
        WriteFault::NoMemory
    }
}

/// Each fault of a batch of jobs is want of memory: memory was refused in it, or in an earlier one.
impl From<BatchFault> for WriteFault {
    ghost use Rattle.alert_lines.specs.declared.fault.WriteFault.TheVariants.{NoMemory as out_of_memory};

    ghost from_gives = { λ _ fault. fault ≡ out_of_memory };

    fn from(_fault: BatchFault) -> WriteFault {
        WriteFault::NoMemory
    }
}
