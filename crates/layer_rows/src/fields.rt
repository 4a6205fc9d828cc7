//! Fields: a call of header_eval, on the row's item.

use crate::items::item_of;
use crate::page::Page;
use crate::row::Row;
use header_eval::field_matches;
use packet_decode::ItemHead;
use row_files::{TextParts, named};
use rule_parser::{Cmp, Field, Opt};

const FIELDS: [(&str, Field); 13] = [
    ("ttl", Field::Ttl),
    ("tos", Field::Tos),
    ("id", Field::Id),
    ("fragoffset", Field::FragOffset),
    ("ip_proto", Field::IpProto),
    ("seq", Field::Seq),
    ("ack", Field::Ack),
    ("window", Field::Window),
    ("itype", Field::Itype),
    ("icode", Field::Icode),
    ("icmp_id", Field::IcmpId),
    ("icmp_seq", Field::IcmpSeq),
    ("dsize", Field::Dsize),
];

const COMPARISONS: [(&str, Cmp); 8] = [
    ("=", Cmp::Eq),
    ("!=", Cmp::Ne),
    ("<", Cmp::Lt),
    (">", Cmp::Gt),
    ("<=", Cmp::Le),
    (">=", Cmp::Ge),
    ("&", Cmp::And),
    ("<>", Cmp::Within),
];

/// What `FIELD COMPARISON LOW HIGH` says.
fn compared(text: &mut TextParts<'_>) -> Option<Opt> {
    let field = named(&FIELDS, text.word())?;
    let cmp = named(&COMPARISONS, text.word())?;
    let (low, high) = (text.number(), text.number());
    if !text.is_read() {
        return None;
    }
    Some(Opt::Compare {
        field,
        cmp,
        low,
        high,
    })
}

/// `field LENGTH FIELD COMPARISON LOW HIGH`: whether the item with LENGTH bytes of payload has it.
fn field(page: &mut Page, item: &ItemHead, text: &str) {
    let mut text = TextParts::of(text, ' ');
    let length = text.number();
    match compared(&mut text) {
        Some(opt) => page.show(field_matches(&opt, item, length as usize)),
        None => page.put("not a comparison"),
    }
}

/// The calls of fields.
pub(crate) fn call(page: &mut Page, row: &Row, call: &str, given: &str) -> bool {
    if call != "field" {
        return false;
    }
    match item_of(&row.item) {
        Some(item) => field(page, &item, given),
        None => page.put("not an item"),
    }
    true
}
