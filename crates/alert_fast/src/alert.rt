//! The line of an alert.
ghost use Rattle.std.specs.Prelude.{◌≡◌, ◌++◌, ◌<◌, OnOk, OnErr, take, codes, length};
ghost use Rattle.std.specs.Option.{ForSome};
ghost use Rattle.alert_fast.specs.Line.{line_text, time_text, marked_msg, class_text, priority_text, protocol_text, source_port, destination_port, port_text};

use crate::address::push_address;
use crate::pieces::TextPiece::{Bytes, Number};
use crate::pieces::{push_pieces, six_digits, three_digits, two_digits};
use crate::utc::utc_time;
use conf_types::Classes;
use edge_io::{Moment, NoMemory};
use packet_decode::{Body, ItemHead};
use rule_types::Rule;

/// Appends the line of an item that the rule matches, with a line feed, in the form of Snort's fast
/// alerts (Snort Users Manual 2.9, section 2.6.2):
///
/// `MM/DD-HH:MM:SS.uuuuuu  [**] [gid:sid:rev] msg [**] [Classification: text] [Priority: n] {P} from -> to`
///
/// The time is that of the item's record in UTC, with the microseconds cut. The classification is
/// there where the rule has a class; the class has to be one of `classes`. P is TCP, UDP or ICMP,
/// also of a fragment, and else `PROTO:` with three digits. Ends have a port for TCP, UDP and streams;
/// a fragment has none. Where memory is lacking, nothing is appended.
pub fn line(
    head: &ItemHead,
    rule: &Rule,
    classes: &Classes,
    out: &mut Vec<u8>,
) -> Result<(), NoMemory>
    requires { ForSome rule.now.class (λ class. class < length classes.now) }
    ensures appended { OnOk result
        (out.new.items ≡ out.old.items ++ line_text head.now rule.now classes.now) }
    ensures unchanged { OnErr result (out.new.items ≡ out.old.items) }
{
    let length = out.len();
    match push_parts(head, rule, classes, out) {
        Ok(()) => Ok(()),
        Err(error) => {
            out.truncate(length);
            Err(error)
        }
    }
}

// Where memory is lacking, a part of the line may be left after what was there.
fn push_parts(
    head: &ItemHead,
    rule: &Rule,
    classes: &Classes,
    out: &mut Vec<u8>,
) -> Result<(), NoMemory>
    requires { ForSome rule.now.class (λ class. class < length classes.now) }
    ensures appended { OnOk result
        (out.new.items ≡ out.old.items ++ line_text head.now rule.now classes.now) }
    ensures kept { OnErr result (take (length out.old.items) out.new.items ≡ out.old.items) }
{
    push_time(head.moment, out)?;
    push_marked_msg(rule, out)?;
    push_class(classes, rule.class, out)?;
    push_priority(rule.priority, out)?;
    push_protocol(head.ip.protocol, out)?;
    push_address(head.ip.src, out)?;
    push_port(source_port(head.body), b" -> ", out)?;
    push_address(head.ip.dst, out)?;
    push_port(destination_port(head.body), b"\n", out)
}

// The moment, and two blanks.
fn push_time(moment: Moment, out: &mut Vec<u8>) -> Result<(), NoMemory>
    ensures appended { OnOk result (out.new.items ≡ out.old.items ++ (time_text moment.nanos ++ codes "  ")) }
    ensures unchanged { OnErr result (out.new.items ≡ out.old.items) }
{
    let utc = utc_time(moment);
    push_pieces(
        out,
        &[
            Bytes(&two_digits(utc.month)),
            Bytes(b"/"),
            Bytes(&two_digits(utc.day)),
            Bytes(b"-"),
            Bytes(&two_digits(utc.hour)),
            Bytes(b":"),
            Bytes(&two_digits(utc.minute)),
            Bytes(b":"),
            Bytes(&two_digits(utc.second)),
            Bytes(b"."),
            Bytes(&six_digits(utc.microsecond)),
            Bytes(b"  "),
        ],
    )
}

fn push_marked_msg(rule: &Rule, out: &mut Vec<u8>) -> Result<(), NoMemory>
    ensures appended { OnOk result (out.new.items
        ≡ out.old.items ++ marked_msg rule.now.gid rule.now.sid rule.now.rev rule.now.msg) }
    ensures unchanged { OnErr result (out.new.items ≡ out.old.items) }
{
    push_pieces(
        out,
        &[
            Bytes(b"[**] ["),
            Number(rule.gid as u64),
            Bytes(b":"),
            Number(rule.sid as u64),
            Bytes(b":"),
            Number(rule.rev as u64),
            Bytes(b"] "),
            Bytes(rule.msg.bytes()),
            Bytes(b" [**] "),
        ],
    )
}

#[tactic(auto, unfolding(crate::specs::Line::class_text))]
fn push_class(classes: &Classes, class: Option<u32>, out: &mut Vec<u8>) -> Result<(), NoMemory>
    requires { ForSome class (λ class. class < length classes.now) }
    ensures appended { OnOk result (out.new.items ≡ out.old.items ++ class_text classes.now class) }
    ensures unchanged { OnErr result (out.new.items ≡ out.old.items) }
{
    match class {
        None => Ok(()),
        Some(class) => push_pieces(
            out,
            &[
                Bytes(b"[Classification: "),
                Bytes(classes.text(class)),
                Bytes(b"] "),
            ],
        ),
    }
}

#[tactic(auto, unfolding(crate::specs::Line::priority_text))]
fn push_priority(priority: u32, out: &mut Vec<u8>) -> Result<(), NoMemory>
    ensures appended { OnOk result (out.new.items ≡ out.old.items ++ priority_text priority) }
    ensures unchanged { OnErr result (out.new.items ≡ out.old.items) }
{
    push_pieces(
        out,
        &[Bytes(b"[Priority: "), Number(priority as u64), Bytes(b"] ")],
    )
}

// The protocol in braces, and a blank.
#[tactic(auto, unfolding(crate::specs::Line::protocol_text))]
fn push_protocol(protocol: u8, out: &mut Vec<u8>) -> Result<(), NoMemory>
    ensures appended { OnOk result (out.new.items
        ≡ out.old.items ++ (codes "{" ++ protocol_text protocol ++ codes "} ")) }
    ensures unchanged { OnErr result (out.new.items ≡ out.old.items) }
{
    match protocol {
        6 => push_pieces(out, &[Bytes(b"{TCP} ")]),
        17 => push_pieces(out, &[Bytes(b"{UDP} ")]),
        1 => push_pieces(out, &[Bytes(b"{ICMP} ")]),
        other => push_pieces(
            out,
            &[
                Bytes(b"{PROTO:"),
                Bytes(&three_digits(other as u16)),
                Bytes(b"} "),
            ],
        ),
    }
}

fn source_port(body: Body) -> Option<u16>
    ensures { result ≡ source_port body }
{
    match body {
        Body::Tcp(head) => Some(head.sport),
        Body::Udp { sport, dport: _ } | Body::Stream { sport, dport: _ } => Some(sport),
        Body::Icmp { .. } | Body::Other | Body::Fragment => None,
    }
}

fn destination_port(body: Body) -> Option<u16>
    ensures { result ≡ destination_port body }
{
    match body {
        Body::Tcp(head) => Some(head.dport),
        Body::Udp { sport: _, dport } | Body::Stream { sport: _, dport } => Some(dport),
        Body::Icmp { .. } | Body::Other | Body::Fragment => None,
    }
}

// The port after a colon, where there is one, and then these bytes.
#[tactic(auto, unfolding(crate::specs::Line::port_text))]
fn push_port(port: Option<u16>, following: &[u8], out: &mut Vec<u8>) -> Result<(), NoMemory>
    ensures appended { OnOk result (out.new.items ≡ out.old.items ++ (port_text port ++ following.now)) }
    ensures unchanged { OnErr result (out.new.items ≡ out.old.items) }
{
    match port {
        None => push_pieces(out, &[Bytes(following)]),
        Some(port) => push_pieces(out, &[Bytes(b":"), Number(port as u64), Bytes(following)]),
    }
}
