//! What lanes are given beside jobs, and how what they find is shown.

ghost use Rattle.std.specs.Prelude.{◌≡◌, length};
ghost use Rattle.conf_types.specs.Sound.{IsStreamConfig};

use crate::page::Page;
use conf_parser::StreamConfig;
use edge_io::{Items, Literal};
use fast_pattern::Groups;
use flow_lanes::Hits;
use option_eval::RuleSet;
use packet_decode::ItemKind;
use std::alloc::Global;

/// By what jobs are answered.
#[derive(Clone, Copy)]
pub(crate) struct JobRules<'a> {
    pub stream: &'a StreamConfig,
    pub set: &'a RuleSet<Literal>,
    pub groups: &'a Groups,
}

/// A configuration without engines that follows streams of TCP, or of UDP.
pub(crate) fn stream_of(alloc: Global, tcp: bool) -> StreamConfig
    ensures config { IsStreamConfig result }
    ensures engines { length result.engines ≡ 0 }
{
    StreamConfig {
        tcp,
        udp: !tcp,
        max_tcp: 8,
        max_udp: 8,
        udp_timeout: 30,
        engines: Items::new(alloc),
    }
}

/// Shows the places of the rules of an item.
pub(crate) fn show_places(page: &mut Page, hits: &Hits) {
    page.put("[");
    for place in hits.rules.as_slice() {
        page.show(*place);
    }
    page.put("]");
}

/// Shows the items of a job, streams `s` and packets `p`, and `-` where there are none.
pub(crate) fn show_items(page: &mut Page, items: &[Hits]) {
    if items.is_empty() {
        page.put("-");
    }
    for hits in items {
        page.put(if hits.head.kind == ItemKind::Stream {
            "s"
        } else {
            "p"
        });
        show_places(page, hits);
    }
    page.put("\n");
}
