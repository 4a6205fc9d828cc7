//! Sessions, packet by packet: the calls of a session.

ghost use Rattle.std.specs.Prelude.{◌≡◌};
ghost use Rattle.stream5_sessions.specs.Phases.{IsBodyOf};

use crate::flags::flags_of;
use crate::page::Page;
use crate::row::Row;
use edge_io::{Addr, Moment};
use packet_decode::{Body, IpHead, TcpHead};
use row_files::{TextParts, cut};
use stream5_sessions::{End, Session, SessionRules, Step};

const CLIENT: End = End {
    addr: Addr::V4(0x0a00_0001),
    port: 1000,
};

const SERVER: End = End {
    addr: Addr::V4(0x0a00_0002),
    port: 80,
};

/// A packet: its ends, what it is for TCP, the bytes of its data, and its second.
#[derive(Clone, Copy)]
struct Sent {
    from: End,
    to: End,
    flags: u8,
    seq: u32,
    ack: u32,
    len: u32,
    second: u64,
}

/// The ends of a packet that the client sends, or the server, or the client to itself.
fn ends_of(parts: &mut TextParts<'_>) -> (End, End) {
    match parts.word() {
        "C" => (CLIENT, SERVER),
        "S" => (SERVER, CLIENT),
        "I" => (CLIENT, CLIENT),
        _ => {
            parts.refuse();
            (CLIENT, SERVER)
        }
    }
}

/// What `SENDER:FLAGS:SEQ:ACK:LENGTH:SECOND` says.
fn sent_of(step: &str) -> Option<Sent> {
    let mut parts = TextParts::of(step, ':');
    let (from, to) = ends_of(&mut parts);
    let sent = Sent {
        from,
        to,
        flags: flags_of(parts.word()),
        seq: parts.number(),
        ack: parts.number(),
        len: parts.number(),
        second: parts.long(),
    };
    if parts.is_read() { Some(sent) } else { None }
}

/// The head of a packet.
fn head_of(sent: &Sent) -> IpHead {
    IpHead {
        id: 1,
        ..IpHead::between(sent.from.addr, sent.to.addr, 6)
    }
}

/// What a packet has after its head.
fn body_of(tcp: bool, sent: &Sent) -> Body
    ensures { IsBodyOf tcp result }
{
    if tcp {
        Body::Tcp(TcpHead {
            sport: sent.from.port,
            dport: sent.to.port,
            seq: sent.seq,
            ack: sent.ack,
            flags: sent.flags,
            window: 65535,
        })
    } else {
        Body::Udp {
            sport: sent.from.port,
            dport: sent.to.port,
        }
    }
}

fn put_if(page: &mut Page, holds: bool, text: &str) {
    if holds {
        page.put(text);
    }
}

/// Shows a base that is set, after whose it is.
fn show_base(page: &mut Page, of: &str, base: Option<u32>) {
    if let Some(base) = base {
        page.put(of);
        page.show(base);
    }
}

/// Shows what a packet tells: a letter for each fact, and the bases.
fn show_step(page: &mut Page, step: &Step, stays: bool) {
    put_if(page, step.ended_before, "<");
    put_if(page, step.begun, "b");
    put_if(page, step.tracked, "t");
    put_if(page, step.established, "e");
    put_if(page, step.from_client == Some(true), "c");
    put_if(page, step.from_client == Some(false), "s");
    put_if(page, step.takes_data, "d");
    put_if(page, step.counts_ack, "a");
    put_if(page, step.ends, "x");
    put_if(page, stays, "=");
    show_base(page, " client ", step.client_base);
    show_base(page, " server ", step.server_base);
    page.put("\n");
}

/// Takes a packet, and shows what it tells and whether it leaves the session as it is.
fn take(page: &mut Page, session: &mut Session, tcp: bool, sent: &Sent, rules: SessionRules)
    requires { session.old.tcp ≡ tcp }
    ensures { session.new.tcp ≡ tcp }
{
    let (ip, body) = (head_of(sent), body_of(tcp, sent));
    let moment = Moment {
        nanos: sent.second.wrapping_mul(1_000_000_000),
    };
    let mut left = *session;
    let stays = left.stay(&ip, &body, moment, rules, &mut Step::default());
    let step = session.step(&ip, &body, sent.len as usize, moment, rules);
    show_step(page, &step, stays);
}

/// Takes the packets of a session, one after another.
fn take_all(page: &mut Page, row: &Row, tcp: bool, rules: SessionRules) {
    let mut session = Session::new(tcp);
    for step in row.steps.as_str().lines() {
        match sent_of(step) {
            Some(sent) => take(page, &mut session, tcp, &sent, rules),
            None => page.put("not a packet\n"),
        }
    }
}

/// `session PROTOCOL NEEDED`: of each step, a packet, what it tells of its session. The timeout is 30 seconds.
pub(crate) fn session(page: &mut Page, row: &Row, given: &str) {
    let (protocol, needed) = cut(given, ' ');
    let rules = SessionRules {
        timeout: 30,
        needed: needed == "needed",
        needed_new: needed == "needed-new",
    };
    take_all(page, row, protocol == "tcp", rules);
}
