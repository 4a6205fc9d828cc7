//! How much the sides of a session have sent.
ghost use Rattle.std.specs.Prelude.{◌≡◌};
ghost use Rattle.header_eval.specs.Fields.{stream_size_holds};

use crate::compare::compares;
use rule_types::{Cmp, Side};

/// Whether the side's size, client first, is as the option asks; where it isn't known, it is not.
pub(crate) fn stream_size_holds(sizes: Option<(u64, u64)>, side: Side, cmp: Cmp, size: u32) -> bool
    ensures { result ≡ stream_size_holds sizes side cmp size }
{
    let Some((client, server)) = sizes else {
        return false;
    };
    let client = compares(cmp, client, size, size);
    let server = compares(cmp, server, size, size);
    match side {
        Side::Client => client,
        Side::Server => server,
        Side::Both => client && server,
        Side::Either => client || server,
    }
}
