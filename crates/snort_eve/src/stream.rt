//! The lines of Unified2 records that come piece by piece.
ghost use Rattle.std.specs.Prelude.{◌≡◌, ◌++◌, [], None, IfOk, OnOk, true};
ghost use Rattle.snort_eve.specs.Forms.{Adds};
ghost use Rattle.snort_eve.specs.Joins.{flushed, lines_of};
ghost use Rattle.snort_eve.specs.Streams.{Feeds, IsForeign};

use crate::joins::{Teller, push_all, push_flushed};
use crate::records::take_records;
use edge_io::NoMemory;
use std::alloc::Global;
use unified2_out::U2Event;

/// What a piece of input leaves.
#[derive(Clone, Copy)]
pub(crate) enum Fed {
    /// Bytes that wait for more, or none.
    Waits,
    /// Bytes that no record can begin with.
    Foreign,
}

/// Unified2 records that come piece by piece: the bytes that wait for the rest of their record, and the event
/// that waits for its packet.
#[derive(Drop)]
pub(crate) struct Stream {
    pub(crate) rest: Vec<u8>,
    pub(crate) held: Option<U2Event>,
}

impl Stream {
    /// Nothing has come.
    pub(crate) fn new(alloc: Global) -> Stream
        ensures rest { result.rest.items ≡ [] }
        ensures held { result.held ≡ None }
    {
        Stream {
            rest: Vec::new(alloc),
            held: None,
        }
    }

    /// Takes a further piece, and appends the lines of the events that it completes.
    ///
    /// Each record is taken as soon as it is whole. At most one record, and the piece, are held in memory.
    pub(crate) fn feed<T: Teller>(
        &mut self,
        alloc: Global,
        teller: &T,
        piece: &[u8],
        out: &mut Vec<u8>,
    ) -> Result<Fed, NoMemory>
        ensures fed { OnOk result (Adds out.old.items out.new.items (Feeds (T.line teller.now) self.old.rest.items self.old.held
            piece.now self.new.rest.items self.new.held)) }
        ensures foreign { IfOk result (λ fed. fed ≡ Fed.Foreign → IsForeign self.new.rest.items) }
    {
        self.rest.extend_from_slice(piece)?;
        let mut entries = Vec::new(alloc);
        let taken = take_records(alloc, &self.rest, &mut entries)?;
        self.held = push_all(alloc, teller, self.held, &entries, out)?;
        self.rest = Vec::from_slice(alloc, &self.rest[taken.size..])?;
        Ok(fed_of(taken.is_foreign))
    }

    /// Ends the input: appends the line of the event that waits.
    pub(crate) fn finish<T: Teller>(
        &self,
        alloc: Global,
        teller: &T,
        out: &mut Vec<u8>,
    ) -> Result<(), NoMemory>
        ensures { OnOk result (out.new.items ≡ out.old.items ++ lines_of (T.line teller.now) (flushed self.now.held)) }
    {
        push_flushed(alloc, teller, self.held, out)
    }
}

fn fed_of(is_foreign: bool) -> Fed
    ensures { result ≡ Fed.Foreign → is_foreign ≡ true }
{
    if is_foreign { Fed::Foreign } else { Fed::Waits }
}
