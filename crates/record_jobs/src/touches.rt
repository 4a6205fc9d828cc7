//! Which packets belong to flows, and what they find of them.
ghost use Rattle.std.specs.Prelude.{◌≡◌, ◌<◌, ◌≤◌, ◌+◌, ◌^◌, IfOk, OnOk};
ghost use Rattle.record_jobs.specs.Steps.{content_key, FindsTouch, SeesKey};
ghost use Rattle.record_jobs.specs.Touches.{key_between, tracked_key};
ghost use Rattle.record_jobs.specs.Way.{way_of};

use crate::config::FrontConfig;
use crate::content::RecordContent;
use conf_types::StreamConfig;
use edge_io::NoMemory;
use packet_decode::{Body, IpHead};
use stream5_sessions::{End, Flows, Key, Touch};

/// The key of a packet between two ports.
fn key_between(tcp: bool, ip: &IpHead, sport: u16, dport: u16) -> Key
    ensures { result ≡ key_between tcp ip.now sport dport }
{
    let from = End {
        addr: ip.src,
        port: sport,
    };
    let to = End {
        addr: ip.dst,
        port: dport,
    };
    Key::of(tcp, from, to)
}

/// The key of a packet, where its protocol is tracked.
#[tactic(auto, unfolding(crate::specs::Touches::tracked_key))]
pub(crate) fn tracked_key(stream: &StreamConfig, ip: &IpHead, body: Body) -> Option<Key>
    ensures { result ≡ tracked_key stream.now ip.now body }
{
    match body {
        Body::Tcp(head) if stream.tcp => Some(key_between(true, ip, head.sport, head.dport)),
        Body::Udp { sport, dport } if stream.udp => Some(key_between(false, ip, sport, dport)),
        _ => None,
    }
}

/// The key that a record's packet touches.
pub(crate) fn content_key(by: &FrontConfig<'_>, content: &RecordContent) -> Option<Key>
    ensures { result ≡ content_key (way_of by.now) content.now }
{
    match &content.packet {
        Some(item) => tracked_key(&by.config.stream, &item.head.ip, item.head.body),
        None => None,
    }
}

/// Touches a key, if there is one.
#[inline(always)]
pub(crate) fn touch_key(flows: &mut Flows, key: Option<Key>) -> Result<Option<Touch>, NoMemory>
    requires { flows.old.next < 2 ^ 63 }
    ensures found { IfOk result (λ touch. FindsTouch flows.old key touch) }
    ensures sees { OnOk result (SeesKey flows.old key flows.new) }
    ensures most { flows.new.max ≡ flows.old.max }
    ensures next { flows.new.next ≤ flows.old.next + 1 }
{
    match key {
        Some(key) => {
            let touch = flows.touch(key)?;
            Ok(Some(touch))
        }
        None => Ok(None),
    }
}
