//! Whether a rule's header fits an item, addresses aside.

ghost use Rattle.std.specs.Prelude.{◌≡◌, IfOk};
ghost use Rattle.fast_pattern.specs.Candidates.{ports_fit, header_fits};

use edge_io::NoMemory;
use net_lists::PortList;
use packet_decode::Body;
use rule_types::{Proto, Rule};
use std::alloc::Global;

/// What decides it: the protocol, the ports and the direction of a rule.
#[derive(Drop)]
pub struct RuleHead {
    pub proto: Proto,
    pub sports: PortList,
    pub dports: PortList,
    pub both: bool,
}

/// What an item carries, as far as a rule without ports asks.
#[derive(Clone, Copy)]
pub enum Transport {
    Tcp,
    Udp,
    Icmp,
    Other,
}

/// A copy of the list.
fn copied(alloc: Global, ports: &PortList) -> Result<PortList, NoMemory>
    ensures { IfOk result (λ copy. copy ≡ ports.now) }
{
    Ok(PortList::from_vec(Vec::from_slice(alloc, ports.parts())?))
}

impl Transport {
    ghost use Rattle.fast_pattern.specs.Kinds.{is_for};

    /// Whether rules of the protocol may fit the kind.
    pub fn has(self, proto: Proto) -> bool
        ensures { result ≡ is_for self proto }
    {
        match (self, proto) {
            (_, Proto::Ip) => true,
            (Transport::Tcp, Proto::Tcp) => true,
            (Transport::Udp, Proto::Udp) => true,
            (Transport::Icmp, Proto::Icmp) => true,
            _ => false,
        }
    }
}

impl RuleHead {
    ghost use Rattle.fast_pattern.specs.Grouping.{asked_of};

    /// What is asked of the rule's header.
    pub fn of(alloc: Global, rule: &Rule) -> Result<RuleHead, NoMemory>
        ensures { IfOk result (λ asked. asked ≡ asked_of rule.now) }
    {
        Ok(RuleHead {
            proto: rule.proto,
            sports: copied(alloc, &rule.sports)?,
            dports: copied(alloc, &rule.dports)?,
            both: rule.both,
        })
    }

    /// Whether the ports fit; under `<>` they may be exchanged.
    fn has_ports(&self, sport: u16, dport: u16) -> bool
        ensures { result ≡ ports_fit self.now.sports self.now.dports self.now.both sport dport }
    {
        let forth = self.sports.contains(sport) && self.dports.contains(dport);
        let back = self.both && self.sports.contains(dport) && self.dports.contains(sport);
        forth || back
    }

    /// Whether the protocol and the ports fit.
    pub fn fits(&self, body: &Body) -> bool
        ensures { result ≡ header_fits self.now.proto self.now.sports self.now.dports self.now.both body.now }
    {
        match (self.proto, body) {
            (Proto::Ip, _) => true,
            (Proto::Tcp, Body::Tcp(head)) => self.has_ports(head.sport, head.dport),
            (Proto::Tcp, Body::Stream { sport, dport }) => self.has_ports(*sport, *dport),
            (Proto::Udp, Body::Udp { sport, dport }) => self.has_ports(*sport, *dport),
            (Proto::Icmp, Body::Icmp { .. }) => true,
            _ => false,
        }
    }
}
