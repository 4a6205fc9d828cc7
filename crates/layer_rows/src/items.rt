//! The items of the rows, by their words: `src=10.0.0.1 protocol=6 tcp=1000,80,2,1,0,8192`.

use crate::addresses::address;
use edge_io::{Addr, Moment};
use packet_decode::{Body, IpHead, ItemHead, ItemKind, SessionFacts, TcpHead};
use row_files::{TextParts, cut};

/// A packet from 10.0.0.1 to 10.0.0.2, of which nothing more is said.
fn plain() -> ItemHead {
    ItemHead {
        kind: ItemKind::Packet,
        moment: Moment { nanos: 0 },
        ip: IpHead {
            id: 7,
            ..IpHead::between(Addr::V4(0x0a00_0001), Addr::V4(0x0a00_0002), 17)
        },
        body: Body::Other,
        session: SessionFacts::UNTRACKED,
    }
}

/// The item of these words, if each of them is one.
pub(crate) fn item_of(words: &str) -> Option<ItemHead> {
    let mut item = plain();
    for word in words.split_whitespace() {
        if !set(&mut item, word) {
            return None;
        }
    }
    Some(item)
}

/// Sets what `KEY=VALUE` says; false where that is nothing.
fn set(item: &mut ItemHead, word: &str) -> bool {
    let (key, value) = cut(word, '=');
    let mut value = TextParts::of(value, ',');
    let is_known = set_head(item, key, &mut value)
        || set_address(&mut item.ip, key, &mut value)
        || set_number(&mut item.ip, key, &mut value)
        || set_flag(&mut item.ip, key, &mut value)
        || set_session(&mut item.session, key, &mut value);
    is_known && value.is_read()
}

/// Kind, moment and body.
fn set_head(item: &mut ItemHead, key: &str, value: &mut TextParts<'_>) -> bool {
    match key {
        "kind" => item.kind = kind_of(value),
        "nanos" => item.moment.nanos = value.long(),
        "body" => item.body = bare_body(value),
        "tcp" => item.body = tcp_of(value),
        "udp" => item.body = udp_of(value),
        "icmp" => item.body = icmp_of(value),
        "stream" => item.body = stream_of(value),
        _ => return false,
    }
    true
}

fn kind_of(value: &mut TextParts<'_>) -> ItemKind {
    match value.word() {
        "packet" => ItemKind::Packet,
        "rebuilt" => ItemKind::Rebuilt,
        "fragment" => ItemKind::Fragment,
        "stream" => ItemKind::Stream,
        _ => {
            value.refuse();
            ItemKind::Packet
        }
    }
}

/// A fragment, or no protocol with numbers.
fn bare_body(value: &mut TextParts<'_>) -> Body {
    if value.word() == "fragment" {
        Body::Fragment
    } else {
        Body::Other
    }
}

/// Both ports of TCP, flags, sequence number, acknowledgement and window.
fn tcp_of(value: &mut TextParts<'_>) -> Body {
    Body::Tcp(TcpHead {
        sport: value.short(),
        dport: value.short(),
        flags: value.byte(),
        seq: value.number(),
        ack: value.number(),
        window: value.short(),
    })
}

/// Both ports of UDP.
fn udp_of(value: &mut TextParts<'_>) -> Body {
    Body::Udp {
        sport: value.short(),
        dport: value.short(),
    }
}

/// Both ports of a stream.
fn stream_of(value: &mut TextParts<'_>) -> Body {
    Body::Stream {
        sport: value.short(),
        dport: value.short(),
    }
}

/// Type, code, identification and sequence number.
fn icmp_of(value: &mut TextParts<'_>) -> Body {
    Body::Icmp {
        kind: value.byte(),
        code: value.byte(),
        id: value.short(),
        seq: value.short(),
    }
}

fn set_address(ip: &mut IpHead, key: &str, value: &mut TextParts<'_>) -> bool {
    match key {
        "src" => ip.src = address(value),
        "dst" => ip.dst = address(value),
        _ => return false,
    }
    true
}

fn set_number(ip: &mut IpHead, key: &str, value: &mut TextParts<'_>) -> bool {
    match key {
        "protocol" => ip.protocol = value.byte(),
        "ttl" => ip.ttl = value.byte(),
        "tos" => ip.tos = value.byte(),
        "id" => ip.id = value.number(),
        "offset" => ip.offset = value.short(),
        _ => return false,
    }
    true
}

/// The bits of the header that are set.
fn set_flag(ip: &mut IpHead, key: &str, value: &mut TextParts<'_>) -> bool {
    match key {
        "reserved" => ip.reserved = truth(value),
        "dont" => ip.dont = truth(value),
        "more" => ip.more = truth(value),
        _ => return false,
    }
    true
}

fn truth(value: &mut TextParts<'_>) -> bool {
    let word = value.word();
    if word != "yes" && word != "no" {
        value.refuse();
    }
    word == "yes"
}

/// What is known of the session; of sizes those of the client and of the server.
fn set_session(session: &mut SessionFacts, key: &str, value: &mut TextParts<'_>) -> bool {
    match key {
        "tracked" => session.tracked = truth(value),
        "established" => session.established = truth(value),
        "client" => session.from_client = Some(truth(value)),
        "sizes" => session.sizes = Some((value.long(), value.long())),
        _ => return false,
    }
    true
}
