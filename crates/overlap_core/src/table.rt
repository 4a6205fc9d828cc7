//! The table of overlaps: which of two segments has a place.
ghost use Rattle.std.specs.Prelude.{◌≡◌};
ghost use Rattle.overlap_core.specs.Overlap.{wins};

use crate::Bounds;
use edge_io::Preference;

/// Where two segments overlap, the new one is taken: the overlap table (Novak 2005) over the whole
/// bounds of both. Takes no memory.
pub fn wins(preference: Preference, old: Bounds, new: Bounds) -> bool
    ensures { result ≡ wins preference old new }
{
    match preference {
        Preference::First => false,
        Preference::Last => true,
        Preference::Bsd => old.start > new.start,
        Preference::BsdRight => old.start <= new.start,
        Preference::Linux => old.start >= new.start,
        Preference::Windows => new.start < old.start && new.end > old.end,
        Preference::Solaris => new.start < old.start && new.end >= old.end,
    }
}
