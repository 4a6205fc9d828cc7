//! A table of hosts: reading it, and the entry of an address.
ghost use Rattle.std.specs.Prelude.{◌≡◌, ◌≤◌, [], ◌∷◌, ◌++◌, false, IfOk, option_copied};
ghost use Rattle.net_lists.specs.Addresses.{IsNetwork, network_at, bits_of};
ghost use Rattle.host_table.specs.HostLine.{is_given};
ghost use Rattle.host_table.specs.Hosts.{entry_at, frag_policy_at, stream_policy_at};
ghost use Rattle.host_table.specs.Index.{place_of};

use crate::host_line::HostLine;
use crate::key::NetworkKey;
use edge_io::{Addr, FragPolicy, NoMemory, StreamPolicy};
use net_lists::Network;
use std::alloc::Global;
use std::collections::BTreeMap;
use std::marker::Model;

/// One more than the longest prefix length.
const LENGTHS: usize = 129;

/// The hosts of a table. Contracts see the list of its entries.
#[derive(Debug, Drop)]
pub struct Hosts {
    entries: Vec<HostLine>,
    /// The place of each entry among the entries.
    places: BTreeMap<NetworkKey, usize>,
    /// Whether an entry may have a prefix length.
    lengths: [bool; LENGTHS],
}

impl Model for Hosts {
    ghost use Rattle.std.specs.Prelude.{List};
    ghost use Rattle.host_table.specs.declared.host_line.HostLine.{HostLine};
    ghost use Rattle.host_table.specs.Index.{IsIndexed};

    ghost Value = { List HostLine };

    ghost view = { λ hosts. hosts.entries.items };

    ghost invariant = { λ hosts. IsIndexed hosts.entries.items hosts.places hosts.lengths };
}

/// How many bits an address has.
fn bits_of(addr: Addr) -> u32
    ensures bits { result ≡ bits_of addr }
    ensures most { result ≤ 128 }
{
    match addr {
        Addr::V4(_) => 32,
        Addr::V6(_) => 128,
    }
}

impl Hosts {
    /// No hosts. Takes no memory.
    pub fn empty(alloc: Global) -> Hosts
        ensures { result ≡ [] }
    {
        Hosts {
            entries: Vec::new(alloc),
            places: BTreeMap::new(alloc),
            lengths: [false; LENGTHS],
        }
    }

    /// The entries, in the order of their lines, lent.
    pub fn entries(&self) -> &[HostLine]
        ensures { result.now ≡ self.now }
    {
        &self.entries
    }

    /// Whether an entry has this network.
    pub(crate) fn is_given(&self, network: Network) -> bool
        ensures { result ≡ is_given self.now network }
    {
        self.places.contains_key(&NetworkKey::of(network))
    }

    /// The hosts with one entry more, of a network that no other has.
    pub(crate) fn with(self, entry: HostLine) -> Result<Hosts, NoMemory>
        requires network { IsNetwork entry.network }
        requires new { is_given self entry.network ≡ false }
        ensures { IfOk result (λ hosts. hosts ≡ self ++ entry ∷ []) }
    {
        let Hosts {
            mut entries,
            mut places,
            mut lengths,
        } = self;
        let place = entries.len();
        entries.push(entry)?;
        places.insert(NetworkKey::of(entry.network), place)?;
        lengths[entry.network.length as usize] = true;
        Ok(Hosts {
            entries,
            places,
            lengths,
        })
    }

    /// The place of the entry whose network is the one around an address with a prefix of this length.
    fn place(&self, addr: Addr, length: u32) -> Option<usize>
        requires { length ≤ bits_of addr }
        ensures { result ≡ place_of self.now (network_at addr length) }
    {
        if !self.lengths[length as usize] {
            return None;
        }
        let network = Network::at(addr, length);
        self.places.get(&NetworkKey::of(network)).copied()
    }

    /// The entry with the longest prefix that has the address.
    fn entry(&self, addr: Addr) -> Option<&HostLine>
        ensures { option_copied result ≡ entry_at self.now addr }
    {
        // Most runs have no table: then no prefix length is asked for.
        if self.entries.is_empty() {
            return None;
        }
        let mut length = bits_of(addr) + 1;
        while length > 0 {
            length -= 1;
            if let Some(place) = self.place(addr, length) {
                return Some(&self.entries[place]);
            }
        }
        None
    }

    /// The fragment policy of the entry with the longest prefix that has the address. None where no entry
    /// has it, and where that one gives no fragment policy. Takes no memory.
    pub fn frag_policy(&self, addr: Addr) -> Option<FragPolicy>
        ensures { result ≡ frag_policy_at self.now addr }
    {
        self.entry(addr)?.frag
    }

    /// The stream policy of the entry with the longest prefix that has the address. None where no entry
    /// has it, and where that one gives no stream policy. Takes no memory.
    pub fn stream_policy(&self, addr: Addr) -> Option<StreamPolicy>
        ensures { result ≡ stream_policy_at self.now addr }
    {
        self.entry(addr)?.stream
    }
}
