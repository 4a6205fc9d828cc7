//! One line of a host table.
ghost use Rattle.std.specs.Prelude.{◌≡◌, IfSome};
ghost use Rattle.net_lists.specs.Addresses.{IsNetwork};
ghost use Rattle.net_lists.specs.Cutting.{words};
ghost use Rattle.host_table.specs.HostLine.{named, entry_of, entry_of_words};
ghost use Rattle.edge_io.specs.Policies.{frag_policy, stream_policy};

use edge_io::{FragPolicy, StreamPolicy};
use net_lists::{Network, Parts};

/// An entry of a host table: what is told of the addresses of a network.
#[derive(Clone, Copy, Debug, PartialEq, Eq)]
pub struct HostLine {
    pub network: Network,
    /// How these hosts put fragments together, if the line says so.
    pub frag: Option<FragPolicy>,
    /// How these hosts put segments together, if the line says so.
    pub stream: Option<StreamPolicy>,
}

/// The fragment policy that a word names, `-` for none.
#[tactic(auto, unfolding(crate::specs::HostLine::named))]
fn named_frag(word: &[u8]) -> Option<Option<FragPolicy>>
    ensures { result ≡ named frag_policy word.now }
{
    if word == b"-".as_slice() {
        return Some(None);
    }
    Some(Some(FragPolicy::read(word)?))
}

/// The stream policy that a word names, `-` for none.
#[tactic(auto, unfolding(crate::specs::HostLine::named))]
fn named_stream(word: &[u8]) -> Option<Option<StreamPolicy>>
    ensures { result ≡ named stream_policy word.now }
{
    if word == b"-".as_slice() {
        return Some(None);
    }
    Some(Some(StreamPolicy::read(word)?))
}

impl HostLine {
    /// The entry of an address word and two policy words.
    #[tactic(auto, unfolding(crate::specs::HostLine::entry_of))]
    fn of(address: &[u8], frag: &[u8], stream: &[u8]) -> Option<HostLine>
        ensures entry { result ≡ entry_of address.now frag.now stream.now }
        ensures sound { IfSome result (λ entry. IsNetwork entry.network) }
    {
        let network = Network::read(address)?;
        let frag = named_frag(frag)?;
        let stream = named_stream(stream)?;
        Some(HostLine {
            network,
            frag,
            stream,
        })
    }

    /// The entry that a line spells: an address and two policies, between blanks.
    #[tactic(auto, unfolding(crate::specs::HostLine::entry_of_words))]
    pub(crate) fn read(text: &[u8]) -> Option<HostLine>
        ensures entry { result ≡ entry_of_words (words text.now) }
        ensures sound { IfSome result (λ entry. IsNetwork entry.network) }
    {
        let mut words = Parts::words(text);
        let address = words.next()?;
        let frag = words.next()?;
        let stream = words.next()?;
        if words.next().is_some() {
            return None;
        }
        HostLine::of(address, frag, stream)
    }
}
