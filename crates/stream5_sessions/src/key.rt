//! The key of a flow: its two ends and its protocol.
ghost use Rattle.std.specs.Prelude.{◌≡◌};
ghost use Rattle.stream5_sessions.specs.Keys.{same_end, key_of};

use edge_io::Addr;

/// An end of a flow: an address and a port.
#[derive(Clone, Copy, Debug, PartialEq, Eq, PartialOrd, Ord)]
pub struct End {
    pub addr: Addr,
    pub port: u16,
}

impl End {
    /// The two ends are one.
    pub(crate) fn is(self, other: End) -> bool
        ensures { result ≡ same_end self other }
    {
        self == other
    }

    /// The end has this address and this port.
    pub(crate) fn has(&self, addr: &Addr, port: u16) -> bool
        ensures { result ≡ same_end self.now (record { addr = addr.now; port = port }) }
    {
        self.addr == *addr && self.port == port
    }
}

/// What names a flow: the protocol, TCP or UDP, and the two ends, the lower one first.
#[derive(Clone, Copy, Debug, PartialEq, Eq)]
pub struct Key {
    pub tcp: bool,
    pub low: End,
    pub high: End,
}

impl Key {
    /// The key of a flow between two ends, the same whichever of them is named first.
    pub fn of(tcp: bool, a: End, b: End) -> Key
        ensures value { result ≡ key_of tcp a b }
        ensures either_order { result ≡ key_of tcp b a }
    {
        if b < a {
            Key {
                tcp,
                low: b,
                high: a,
            }
        } else {
            Key {
                tcp,
                low: a,
                high: b,
            }
        }
    }
}
