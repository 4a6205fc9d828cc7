//! Which engine an address goes by, and what goes by it.
ghost use Rattle.std.specs.Prelude.{◌≡◌, ◌+◌, ◌*◌, ◌≤◌, Bool, is_none, length, position, unwrap_or, nat_le};
ghost use Rattle.std.specs.List.{find};
ghost use Rattle.std.specs.Option.{option_copied, option_or};
ghost use Rattle.edge_io.specs.Policies.{frag_preference};
ghost use Rattle.record_jobs.specs.Way.{frag_rules, is_bound, is_due, stream_place, toward_address, way_of};
ghost use Rattle.record_jobs.specs.OneWay.{is_one_for_all, toward_by};

use crate::config::FrontConfig;
use crate::time::Time;
use conf_types::{DEFAULT_FRAG_ENGINE, FragConfig, FragEngine, StreamEngine};
use edge_io::{Addr, FragPolicy, Preference, StreamPolicy};
use flow_lanes::Toward;
use frag3_core::FragRules;
use host_table::Hosts;
use net_lists::AddrList;
use packet_decode::IpHead;

/// Whether a line's `bind_to` has the address.
fn is_bound(addr: Addr, bind: &Option<AddrList>) -> bool
    ensures { result ≡ is_bound addr bind.now }
{
    match bind {
        Some(list) => list.contains(addr),
        None => false,
    }
}

/// The first engine of fragments whose `bind_to` has the address.
fn bound_engine(engines: &[FragEngine], addr: Addr) -> Option<&FragEngine>
    ensures { option_copied result ≡ find (λ engine. is_bound addr engine.bind) engines.now }
{
    engines.iter().find(|engine| is_bound(addr, &engine.bind))
}

/// The first engine of fragments to all that no other line has.
fn other_engine(engines: &[FragEngine]) -> Option<&FragEngine>
    ensures { option_copied result ≡ find (λ engine. is_none engine.bind) engines.now }
{
    engines.iter().find(|engine| engine.bind.is_none())
}

/// The engine of fragments to an address; None where the defaults hold.
fn frag_engine(engines: &[FragEngine], addr: Addr) -> Option<&FragEngine>
    ensures { option_copied result
        ≡ option_or (find (λ engine. is_bound addr engine.bind) engines.now) (find (λ engine. is_none engine.bind) engines.now) }
{
    bound_engine(engines, addr).or_else(|| other_engine(engines))
}

/// What fragments are taken by, where the host table says this of their destination and its engine the rest.
fn rules_of(host: Option<FragPolicy>, policy: FragPolicy, timeout: u32, min_ttl: u8) -> FragRules
    ensures { result
        ≡ record { preference = frag_preference (unwrap_or host policy); timeout = timeout; min_ttl = min_ttl } }
{
    FragRules {
        preference: host.unwrap_or(policy).preference(),
        timeout,
        min_ttl,
    }
}

/// What a fragment to this address is taken by.
#[tactic(auto, unfolding(crate::specs::Way::frag_rules, crate::specs::Way::frag_engine))]
pub(crate) fn frag_rules(hosts: &Hosts, config: &FragConfig, addr: Addr) -> FragRules
    ensures { result ≡ frag_rules hosts.now config.now addr }
{
    let host = hosts.frag_policy(addr);
    match frag_engine(config.engines.as_slice(), addr) {
        Some(engine) => rules_of(host, engine.policy, engine.timeout, engine.min_ttl),
        None => rules_of(
            host,
            DEFAULT_FRAG_ENGINE.policy,
            DEFAULT_FRAG_ENGINE.timeout,
            DEFAULT_FRAG_ENGINE.min_ttl,
        ),
    }
}

/// The place of the first engine of streams whose `bind_to` has the address.
fn bound_place(engines: &[StreamEngine], addr: Addr) -> Option<usize>
    ensures { result ≡ position (λ engine. is_bound addr engine.bind) engines.now }
{
    engines
        .iter()
        .position(|engine| is_bound(addr, &engine.bind))
}

/// The place of the first engine of streams to all that no other line has.
fn other_place(engines: &[StreamEngine]) -> Option<usize>
    ensures { result ≡ position (λ engine. is_none engine.bind) engines.now }
{
    engines.iter().position(|engine| engine.bind.is_none())
}

/// The place of the engine of streams to an address; the number of engines where the defaults hold.
#[tactic(auto, unfolding(crate::specs::Way::stream_place))]
fn stream_place(engines: &[StreamEngine], addr: Addr) -> usize
    ensures { result ≡ stream_place engines.now addr }
{
    bound_place(engines, addr)
        .or_else(|| other_place(engines))
        .unwrap_or(engines.len())
}

/// Whether this many seconds have gone by since the capture's first record.
fn is_due(time: Time, handshake: Option<u32>) -> bool
    ensures { result ≡ is_due time handshake }
{
    match handshake {
        Some(seconds) => {
            u128::from(time.first.nanos) + u128::from(seconds) * 1_000_000_000
                <= u128::from(time.now.nanos)
        }
        None => false,
    }
}

/// Whether each address goes by the same: there is one engine, to all, and nothing is known of hosts.
fn is_one_for_all(by: &FrontConfig<'_>) -> bool
    ensures { result ≡ is_one_for_all (way_of by.now) }
{
    let engines = by.config.stream.engines.as_slice();
    engines.len() == 1 && other_place(engines).is_some() && by.hosts.entries().is_empty()
}

/// What a packet's data go by at the engine at a place, where the host table says this of the address.
fn toward_by(
    by: &FrontConfig<'_>,
    tcp: bool,
    time: Time,
    place: usize,
    host: Option<StreamPolicy>,
) -> Toward
    requires { place ≤ 1024 }
    ensures { result ≡ toward_by (way_of by.now) tcp time place host }
{
    let settings = by.config.stream.settings_at(place);
    Toward {
        engine: place as u32,
        preference: host.unwrap_or(settings.policy).preference(),
        needed: tcp && is_due(time, settings.handshake),
    }
}

/// What a packet's data go by, sent to this address.
// Kept out of the line of packets whose addresses go by the same.
#[inline(never)]
fn toward(by: &FrontConfig<'_>, tcp: bool, time: Time, addr: Addr) -> Toward
    requires { length by.now.config.now.stream.engines ≤ 1024 }
    ensures { result ≡ toward_address (way_of by.now) tcp time addr }
{
    let engines = by.config.stream.engines.as_slice();
    let place = stream_place(engines, addr);
    let host = by.hosts.stream_policy(addr);
    toward_by(by, tcp, time, place, host)
}

/// What a packet's data go by: sent to its destination, and to its source.
#[inline(always)]
pub(crate) fn towards(by: &FrontConfig<'_>, tcp: bool, time: Time, ip: &IpHead) -> (Toward, Toward)
    requires { length by.now.config.now.stream.engines ≤ 1024 }
    ensures dst { result.0 ≡ toward_address (way_of by.now) tcp time ip.now.dst }
    ensures src { result.1 ≡ toward_address (way_of by.now) tcp time ip.now.src }
{
    // So it is in most runs: then both addresses have one answer, which is made once.
    let alike = is_one_for_all(by);
    if alike {
        let to_all = toward_by(by, tcp, time, 0, None);
        return (to_all, to_all);
    }
    let to_dst = toward(by, tcp, time, ip.dst);
    let to_src = toward(by, tcp, time, ip.src);
    (to_dst, to_src)
}
