//! Lists, networks, names, variables and parts: the calls of net_lists.

use crate::addresses::address;
use crate::page::Page;
use edge_io::Addr;
use net_lists::{AddrList, Network, PortList, Vars, first_word, is_name, signed_in};
use row_files::{TextParts, cut};

/// `port PORT LIST`: whether the list has the port, or why it is no list.
fn port(page: &mut Page, given: &str) {
    let mut given = TextParts::of(given, ' ');
    let port = given.short();
    match PortList::read(page.alloc, given.left().as_bytes()) {
        Ok(list) => page.show(list.contains(port)),
        Err(fault) => page.debug(&fault),
    }
}

/// `from-21-and-80 PORT`: whether a list that is made of these two has the port.
fn made_of_ports(page: &mut Page, given: &str) {
    let port = TextParts::of(given, ' ').short();
    match PortList::from_ports(page.alloc, &[21, 80]) {
        Ok(list) => page.show(list.contains(port)),
        Err(fault) => page.debug(&fault),
    }
}

/// `address ADDRESS LIST`: whether the list has the address, or why it is no list.
fn listed_address(page: &mut Page, given: &str) {
    let mut given = TextParts::of(given, ' ');
    let address = address(&mut given);
    match AddrList::read(page.alloc, given.left().as_bytes()) {
        Ok(list) => page.show(list.contains(address)),
        Err(fault) => page.debug(&fault),
    }
}

/// `last-address LIST`: its last part.
fn last_address(page: &mut Page, list: &str) {
    match AddrList::read(page.alloc, list.as_bytes()) {
        Ok(list) => page.debug(&list.parts().last()),
        Err(fault) => page.debug(&fault),
    }
}

/// Shows a network: its first address in hexadecimal digits, and its length.
fn show_network(page: &mut Page, network: Network) {
    let length = network.length;
    match network.first {
        Addr::V4(first) => page.show(format_args!("{first:08x}/{length}")),
        Addr::V6(first) => page.show(format_args!("{first:032x}/{length}")),
    }
}

/// `network TEXT`: its first address in hexadecimal digits, and its length.
fn network(page: &mut Page, text: &str) {
    match Network::read(text.as_bytes()) {
        Some(network) => show_network(page, network),
        None => page.put("none"),
    }
}

/// `name TEXT`: whether a variable may have it.
fn name(page: &mut Page, text: &str) {
    page.show(is_name(text.as_bytes()));
}

/// Gives a variable a value, where this is a name.
fn define(page: &mut Page, vars: &mut Vars, name: &[u8], value: &[u8], fixed: bool) {
    if is_name(name) {
        page.note(vars.define(name, value, fixed));
    }
}

/// Writes the fault of a text, and what then follows `x`: its bytes, or how many of them where they are many.
fn show_expanded(page: &mut Page, vars: &Vars, text: &[u8]) {
    let mut out = Vec::new(page.alloc);
    page.note(out.push(b'x'));
    page.debug(&vars.expand(text, &mut out).err());
    page.put(" ");
    if out.len() > 1000 {
        page.show(out.len());
    } else {
        page.bytes(&out);
    }
}

/// `expansion COUNT TEXT`: the expansion, with N as 7, which no line changes, and B as the last text that it is given,
/// COUNT bytes.
fn expansion(page: &mut Page, given: &str) {
    let (count, text) = cut(given, ' ');
    let long = page.repeated("b", count);
    let mut vars = Vars::new(page.alloc);
    define(page, &mut vars, b"N", b"7", true);
    define(page, &mut vars, b"N", b"8", false);
    define(page, &mut vars, b"B", b"short", false);
    define(page, &mut vars, b"B", long.as_bytes(), false);
    show_expanded(page, &vars, text.as_bytes());
}

/// Shows the last of parts.
fn show_last(page: &mut Page, parts: net_lists::Parts<'_>) {
    page.bytes(parts.last().unwrap_or(b"none"));
}

/// `signed TEXT`: the number from -5 to 5.
fn signed(page: &mut Page, text: &str) {
    page.debug(&signed_in(-5, 5, text.as_bytes()));
}

/// The calls of parts.
fn parts_call(page: &mut Page, call: &str, text: &[u8]) -> bool {
    match call {
        "behind" => page.bytes(first_word(text).1),
        "words" => show_last(page, net_lists::Parts::words(text)),
        "settings" => show_last(page, net_lists::Parts::settings(text)),
        "commas" => show_last(page, net_lists::Parts::commas(text)),
        _ => return false,
    }
    true
}

/// The calls of lists, names, variables and parts.
pub(crate) fn call(page: &mut Page, call: &str, given: &str) -> bool {
    match call {
        "port" => port(page, given),
        "from-21-and-80" => made_of_ports(page, given),
        "address" => listed_address(page, given),
        "last-address" => last_address(page, given),
        "network" => network(page, given),
        "name" => name(page, given),
        "expansion" => expansion(page, given),
        "signed" => signed(page, given),
        _ => return parts_call(page, call, given.as_bytes()),
    }
    true
}
