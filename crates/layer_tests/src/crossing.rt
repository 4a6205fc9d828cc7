//! Types that cross threads, or are shared by them. That this is proved is all that it says.

use edge_io::crossing::{sendable, shareable};
use edge_io::{
    Addr, FragPolicy, Items, Link, Literal, LiteralMaker, MemHost, MemSink, Moment, OpenGate,
    PatternFlags, Refusal, Span, StreamPolicy, Text,
};
use flowbit_state::Bits;
use frag3_core::{Datagram, DatagramKey, FragRules, Ignored, Taken};
use ordered_merge::Numbered;
use overlap_core::{Piece, Queue, Run};
use pattern_search::Automaton;
use piece_list::PieceList;
use stream5_reassembly::{Direction, Extent};

/// Types of the outside.
fn outside() {
    sendable::<FragPolicy>();
    shareable::<FragPolicy>();
    sendable::<Link>();
    shareable::<Link>();
    sendable::<Literal>();
    shareable::<Literal>();
    sendable::<LiteralMaker>();
    shareable::<LiteralMaker>();
    sendable::<MemHost>();
    shareable::<MemHost>();
    sendable::<MemSink>();
    shareable::<MemSink>();
    sendable::<OpenGate>();
    shareable::<OpenGate>();
    sendable::<StreamPolicy>();
    shareable::<StreamPolicy>();
}

/// Types that all crates share.
fn shared() {
    sendable::<Addr>();
    shareable::<Addr>();
    sendable::<Items<u8>>();
    shareable::<Items<u8>>();
    sendable::<Moment>();
    shareable::<Moment>();
    sendable::<PatternFlags>();
    shareable::<PatternFlags>();
    sendable::<Refusal>();
    shareable::<Refusal>();
    sendable::<Span>();
    shareable::<Span>();
    sendable::<Text>();
    shareable::<Text>();
}

/// Types of fragments and segments: a queue and its runs may move to another thread, and runs may be read by several.
fn overlaps() {
    sendable::<Queue>();
    sendable::<Piece>();
    sendable::<Run>();
    shareable::<Run>();
    sendable::<Datagram>();
    shareable::<Datagram>();
    sendable::<DatagramKey>();
    shareable::<DatagramKey>();
    sendable::<FragRules>();
    shareable::<FragRules>();
    sendable::<Ignored>();
    shareable::<Ignored>();
    sendable::<Taken>();
    shareable::<Taken>();
}

/// Types of flows: a direction moves to another thread with its lane.
fn flows() {
    sendable::<Direction>();
    sendable::<Extent>();
    sendable::<Bits>();
    shareable::<Bits>();
}

/// An automaton may be read by several threads, and move to another one.
fn patterns() {
    sendable::<Automaton>();
    shareable::<Automaton>();
}

/// A list may move to another thread where its elements may.
fn list_is_sendable<T: Send + Drop>() {
    sendable::<PieceList<T>>();
}

/// A numbered value may move to another thread where its value may.
fn numbered_is_sendable<T: Send>() {
    sendable::<Numbered<T>>();
}

/// Threads may share a numbered value where they may share its value.
fn numbered_is_shareable<T: Sync>() {
    shareable::<Numbered<T>>();
}

/// Types of any elements and values.
fn of_any() {
    list_is_sendable::<Vec<u8>>();
    numbered_is_sendable::<String>();
    numbered_is_shareable::<String>();
}

#[test]
fn types_cross_threads(_rt: HostRuntime) {
    outside();
    shared();
    overlaps();
    flows();
    patterns();
    of_any();
}
