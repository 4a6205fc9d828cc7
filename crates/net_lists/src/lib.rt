//! Addresses, ports and variables: the small languages of a configuration's values.
//!
//! `AddrList` and `PortList` read the lists of the Snort manual, `!` and nested brackets among them,
//! and answer whether an address or a port is listed; each reads exactly the texts of the grammar in
//! specs/Lists and is seen as the list of its parts. `Vars` keeps the variables of a configuration and
//! expands them in a text by the forms in specs/Forms. The readers of configurations and of rules build
//! on this crate, and every rule that is tried asks `contains`.
#![tactic(auto)]

mod address4;
mod address6;
mod address_list;
mod address_parts;
mod blank;
mod compact;
mod decimal;
mod expand;
mod fault;
mod fold;
mod form;
mod lines;
mod member;
mod name;
mod network;
mod number;
mod part;
mod parts;
mod place;
mod port_list;
mod port_part;
mod read;
mod split;
mod stop;
mod token;
mod vars;

pub use address_list::AddrList;
pub use address_parts::AddrParts;
pub use blank::trimmed;
pub use fault::{ExpandFault, ListFault};
pub use fold::{PartStep, TryPartStep};
pub use lines::{NumberedLine, cut_line, first_line, has_content};
pub use name::is_name;
pub use network::Network;
pub use number::{number_in, signed_in};
pub use part::{AddrBounds, AddrPart, Part, PortPart, ValueBounds};
pub use parts::{Parts, first_word};
pub use port_list::{PortList, ports_are_as_listed};
pub use split::cut;
pub use stop::Stop;
pub use vars::Vars;
