//! Tables of hosts: the calls of host_table. The table is the row's file `h`.

use crate::addresses::address;
use crate::page::Page;
use crate::row::Row;
use host_table::{HostFault, Hosts, LONGEST_TABLE, read_hosts};
use row_files::TextParts;

/// The hosts of a row's table, or why it is refused; without a table there are none.
fn hosts_of(page: &Page, row: &Row) -> Result<Hosts, HostFault> {
    let table = row.files.bytes("h");
    if table.is_empty() || table.len() > LONGEST_TABLE {
        return Ok(Hosts::empty(page.alloc));
    }
    read_hosts(page.alloc, table)
}

/// `hosts`: how many there are, or why the table is refused.
pub(crate) fn hosts(page: &mut Page, row: &Row) {
    match hosts_of(page, row) {
        Ok(hosts) => page.show(format_args!("hosts: {}", hosts.entries().len())),
        Err(fault) => page.debug(&fault),
    }
}

/// `policies ADDRESS`: those for fragments and for streams.
pub(crate) fn policies(page: &mut Page, row: &Row, text: &str) {
    let address = address(&mut TextParts::of(text, ' '));
    match hosts_of(page, row) {
        Ok(hosts) => {
            page.debug(&hosts.frag_policy(address));
            page.put(" ");
            page.debug(&hosts.stream_policy(address));
        }
        Err(fault) => page.debug(&fault),
    }
}
