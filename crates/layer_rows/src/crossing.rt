//! Types that cross threads, or are shared by them. That this is proved is all that it says.

use command_words::{ChecksumMode, Command, WordsFault};
use conf_parser::{LoadStop, Loaded};
use edge_io::Literal;
use edge_io::crossing::sendable;
use event_filters::Filters;
use fast_pattern::Groups;
use flow_lanes::Lane;
use host_table::Hosts;
use net_lists::{AddrList, PortList, Vars};
use option_eval::RuleSet;
use packet_decode::{Checks, ItemHead, Packet, Skip};
use pcap_input::{CaptureFault, CaptureHead, CaptureReader, Record};
use pcapng_input::{NgFault, NgReader, NgRecord};
use snort_setup::Setup;
use stream5_sessions::{End, Flows, Key, Session, SessionRules, Step, Touch};

/// Proved only for a type that may move to another thread, and that threads may share.
fn crosses<T: Send + Sync>() {}

/// Types of captures.
fn captures() {
    crosses::<CaptureFault>();
    crosses::<CaptureHead>();
    crosses::<CaptureReader>();
    crosses::<Record>();
    crosses::<NgFault>();
    crosses::<NgReader>();
    crosses::<NgRecord>();
}

/// Types of packets.
fn packets() {
    crosses::<Checks>();
    crosses::<Packet<'static>>();
    crosses::<Skip>();
    crosses::<ItemHead>();
}

/// Types of the readers.
fn readers() {
    crosses::<AddrList>();
    crosses::<PortList>();
    crosses::<Vars>();
    crosses::<Hosts>();
    crosses::<Loaded>();
    sendable::<LoadStop>();
    crosses::<Command>();
    sendable::<WordsFault>();
    sendable::<ChecksumMode>();
}

/// Types of flows and sessions.
fn sessions() {
    crosses::<End>();
    crosses::<Key>();
    crosses::<Flows>();
    crosses::<Touch>();
    crosses::<Session>();
    crosses::<SessionRules>();
    crosses::<Step>();
}

/// Types of what is ready and goes on.
fn detectors() {
    crosses::<Setup<Literal>>();
    crosses::<RuleSet<Literal>>();
    crosses::<Groups>();
    sendable::<Filters>();
    sendable::<Lane>();
}

/// All types that must cross threads do.
pub(crate) fn types_cross_threads() {
    captures();
    packets();
    readers();
    sessions();
    detectors();
}
