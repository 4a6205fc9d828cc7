//! Why no detector is ready.

use edge_io::{NoMemory, Text};
use std::alloc::{AllocError, AllocFailed};

/// Why a setup ends before its end.
#[derive(Debug, Drop)]
pub enum SetupStop {
    /// A line is refused, or a file that is too large, with this message: a line with its line feed.
    Refused { message: Text },
    /// The host failed at this file, or has no such file.
    CannotRead { name: Text },
    /// Memory ran out.
    NoMemory,
}

impl From<NoMemory> for SetupStop {
    ghost use Rattle.std.specs.Prelude.{◌≡◌};
    ghost use Rattle.snort_setup.specs.declared.stop.SetupStop.TheVariants.{NoMemory as out_of_memory};

    ghost from_gives = { λ _ stop. stop ≡ out_of_memory };

    fn from(_error: NoMemory) -> SetupStop {
        SetupStop::NoMemory
    }
}
