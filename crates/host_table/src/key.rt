//! A network as a key, so that the longest prefix is found.
ghost use Rattle.std.specs.Prelude.{◌≡◌};
ghost use Rattle.host_table.specs.Keys.{key_of};

use edge_io::Addr;
use net_lists::Network;

/// A network as a key of an ordered map: by prefix length, and then by address, version 4 first.
#[derive(Clone, Copy, Debug, PartialEq, Eq, PartialOrd, Ord)]
pub struct NetworkKey {
    pub length: u32,
    pub first: Addr,
}

impl NetworkKey {
    /// The key of a network.
    pub fn of(network: Network) -> NetworkKey
        ensures { result ≡ key_of network }
    {
        NetworkKey {
            length: network.length,
            first: network.first,
        }
    }
}
