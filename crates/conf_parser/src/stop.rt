//! A kind of fault stops a reader.
ghost use Rattle.std.specs.Prelude.{◌≡◌};

use crate::line::ConfKind;
use net_lists::Stop;

impl From<ConfKind> for Stop<ConfKind> {
    ghost use Rattle.net_lists.specs.declared.stop.Stop.TheVariants.{Wrong as wrong};

    ghost from_gives = { λ kind stop. stop ≡ wrong kind };

    fn from(kind: ConfKind) -> Stop<ConfKind> {
        Stop::Wrong(kind)
    }
}
