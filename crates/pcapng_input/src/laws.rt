//! Laws for callers: what a reader's calls give, and that a savefile of the same packets gives the same.

ghost use Rattle.std.specs.Prelude.{ℕ, ◌≤◌, All, Bool, List, Option, length};
ghost use Rattle.edge_io.specs.declared.link.Link.{Link};
ghost use Rattle.pcap_input.specs.Savefile.{most_records, savefile};
ghost use Rattle.pcapng_input.specs.Blocks.{ng_records};
ghost use Rattle.pcapng_input.specs.Calls.{ReadsAll, ReadsFirst};
ghost use Rattle.pcapng_input.specs.Twins.{AreTwins, Caught, IsPcapngOf, IsSavefileOf, IsWritable, ng_text, pcap_text};

/// What `NgReader::open` and the calls of `NgReader::next` after it give, one after another, is what the
/// capture's bytes hold (`ng_records`), for every limit of records, where the host tells those bytes. Where
/// the host fails or memory lacks, the records given until then are the first of them.
pub fn calls_give_the_records()
    ensures all { ReadsAll }
    ensures first { ReadsFirst }
{}

/// The same packets in a savefile and in a pcapng file are the same records: in either byte order, in microseconds
/// or nanoseconds, on each of the three links, and up to any limit. What each file holds is what was written.
pub fn savefile_and_pcapng_are_twins()
    ensures pcap { (swapped nanos : Bool) (link : Link) (packets : List Caught) → All (IsWritable nanos) packets
        → length packets ≤ most_records → IsSavefileOf swapped nanos link packets }
    ensures pcapng { (swapped nanos : Bool) (link : Link) (packets : List Caught) → All (IsWritable nanos) packets
        → length packets ≤ most_records → IsPcapngOf swapped nanos link packets }
    ensures twins { (swapped other nanos : Bool) (link : Link) (packets : List Caught) (limit : Option ℕ)
        → All (IsWritable nanos) packets → length packets ≤ most_records
        → AreTwins (savefile (pcap_text swapped nanos link packets) limit) (ng_records (ng_text other nanos link packets) limit) }
{}
