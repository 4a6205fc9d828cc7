//! Why a text isn't read as a list.
ghost use Rattle.std.specs.Prelude.{◌≡◌};

use std::alloc::AllocError;

/// Why a text is not read as a list.
#[derive(Clone, Copy, Debug, PartialEq, Eq)]
pub enum ListFault {
    /// The text is no list of addresses.
    BadAddress,
    /// The text is no list of ports.
    BadPort,
    /// The text is a list of more than 1024 parts.
    ListTooLong,
    /// Memory ran out.
    NoMemory,
}

/// Why a text is not expanded.
#[derive(Clone, Copy, Debug, PartialEq, Eq)]
pub enum ExpandFault {
    /// The first undefined variable: the places in the text of its name, or of the text that the form
    /// `$(N:?text)` shows for it.
    Unknown { from: usize, to: usize },
    /// The expansion would be longer than 65536 bytes.
    TooLong,
    /// Memory ran out.
    NoMemory,
}

impl From<AllocError> for ExpandFault {
    ghost use Rattle.net_lists.specs.declared.fault.ExpandFault.TheVariants.{NoMemory as out_of_memory};

    ghost from_gives = { λ _ fault. fault ≡ out_of_memory };

    fn from(_error: AllocError) -> ExpandFault {
        ExpandFault::NoMemory
    }
}
