//! What stops a reader of texts: the one answer of each reader that takes memory, for any kind of fault.
//!
//! A crate with kinds of its own writes one more `From`, from its kind, by hand, with
//! `ghost from_gives = { λ kind stop. stop ≡ wrong kind }`; then `?` takes what `ok_or(kind)` gives, what
//! another reader gives and what a vector answers.
ghost use Rattle.std.specs.Prelude.{◌≡◌};

use edge_io::NoMemory;
use std::alloc::{AllocError, AllocFailed};

/// Why a text gives no value: memory ran out, or the text is wrong in this way.
#[derive(Debug, PartialEq, Eq, Drop)]
pub enum Stop<K> {
    NoMemory,
    Wrong(K),
}

impl<K> From<NoMemory> for Stop<K> {
    ghost use Rattle.net_lists.specs.declared.stop.Stop.TheVariants.{NoMemory as out_of_memory};

    ghost from_gives = { λ _ stop. stop ≡ out_of_memory };

    fn from(_error: NoMemory) -> Stop<K> {
        Stop::NoMemory
    }
}

impl<K> From<AllocError> for Stop<K> {
    ghost use Rattle.net_lists.specs.declared.stop.Stop.TheVariants.{NoMemory as out_of_memory};

    ghost from_gives = { λ _ stop. stop ≡ out_of_memory };

    fn from(_error: AllocError) -> Stop<K> {
        Stop::NoMemory
    }
}

impl<T: Drop, K> From<AllocFailed<T>> for Stop<K> {
    ghost use Rattle.net_lists.specs.declared.stop.Stop.TheVariants.{NoMemory as out_of_memory};

    ghost from_gives = { λ _ stop. stop ≡ out_of_memory };

    fn from(_error: AllocFailed<T>) -> Stop<K> {
        Stop::NoMemory
    }
}
