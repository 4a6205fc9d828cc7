//! Policies by host: which overlapping piece a host keeps, told by its address.
//!
//! `read_hosts` reads a host table, lines `address FRAG STREAM`, into exactly the entries of `hosts_of`
//! in specs/Hosts, or refuses its first wrong line. A `Hosts` is seen as the list of its entries;
//! `frag_policy` and `stream_policy` answer by the entry with the longest prefix that has the address.
//! The reassembly of fragments and of streams asks it for each datagram and each packet.
#![tactic(auto)]

mod fault;
mod host_line;
mod hosts;
mod key;
mod read;

pub use edge_io::{FragPolicy, Preference, StreamPolicy};
pub use fault::HostFault;
pub use host_line::HostLine;
pub use hosts::Hosts;
pub use read::{LONGEST_TABLE, read_hosts};
