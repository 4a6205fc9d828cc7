//! What comes before the first line, and the configuration after the last.
ghost use Rattle.std.specs.Prelude.{◌≡◌};
ghost use Rattle.conf_parser.specs.Settings.{all_checks, no_checks, default_queue, default_global, first_draft, frag_of, stream_of, config_of};

use crate::Classes;
use crate::draft::{Draft, FragDraft, StreamDraft, StreamGlobal};
use conf_types::{Config, FragConfig, QueueLimits, StreamConfig};
use edge_io::Items;
use packet_decode::Checks;
use std::alloc::Global;

/// Every checksum is checked.
pub const ALL_CHECKS: Checks = Checks {
    ip: true,
    tcp: true,
    udp: true,
    icmp: true,
};

/// No checksum is checked.
pub const NO_CHECKS: Checks = Checks {
    ip: false,
    tcp: false,
    udp: false,
    icmp: false,
};

/// The values where there is no `stream5_global` line.
pub const DEFAULT_GLOBAL: StreamGlobal = StreamGlobal {
    track_tcp: true,
    track_udp: true,
    max_tcp: 262144,
    max_udp: 131072,
};

/// The draft before the first line. Takes no memory.
#[tactic(auto, unfolding(crate::specs::Settings::first_draft))]
pub fn first_draft(alloc: Global) -> Draft
    ensures { result ≡ first_draft }
{
    Draft {
        checks: ALL_CHECKS,
        classes: Classes::new(alloc),
        queue: QueueLimits {
            max_queue: 8,
            log: 3,
            by_priority: false,
        },
        inserts: true,
        frag: FragDraft {
            max_frags: None,
            engines: Items::new(alloc),
        },
        stream: StreamDraft {
            global: None,
            udp_timeout: None,
            engines: Items::new(alloc),
        },
        filters: Items::new(alloc),
        suppress: Items::new(alloc),
    }
}

/// Frag3 works where there is an engine line.
#[tactic(auto, unfolding(crate::specs::Settings::frag_of))]
fn frag_of(draft: FragDraft) -> Option<FragConfig>
    ensures { result ≡ frag_of draft }
{
    let FragDraft { max_frags, engines } = draft;
    if engines.as_slice().is_empty() {
        return None;
    }
    Some(FragConfig {
        max_frags: max_frags.unwrap_or(8192),
        engines,
    })
}

/// A protocol is tracked where it has a line and `stream5_global` does not say no.
#[tactic(auto, unfolding(crate::specs::Settings::stream_of))]
fn stream_of(draft: StreamDraft) -> StreamConfig
    ensures { result ≡ stream_of draft }
{
    let StreamDraft {
        global,
        udp_timeout,
        engines,
    } = draft;
    let global = global.unwrap_or(DEFAULT_GLOBAL);
    let has_tcp = !engines.as_slice().is_empty();
    StreamConfig {
        tcp: has_tcp && global.track_tcp,
        udp: udp_timeout.is_some() && global.track_udp,
        max_tcp: global.max_tcp,
        max_udp: global.max_udp,
        udp_timeout: udp_timeout.unwrap_or(30),
        engines,
    }
}

/// The configuration that all lines give.
#[tactic(auto, unfolding(crate::specs::Settings::config_of))]
pub fn config_of(draft: Draft) -> Config
    ensures { result ≡ config_of draft }
{
    let Draft {
        checks,
        classes,
        queue,
        inserts,
        frag,
        stream,
        filters,
        suppress,
    } = draft;
    Config {
        checks,
        classes,
        queue,
        inserts,
        frag: frag_of(frag),
        stream: stream_of(stream),
        filters,
        suppress,
    }
}
