//! The calls of rows, by their names.

use crate::page::Page;
use crate::row::Row;
use crate::{
    captures, commands, configurations, fields, flows, hosts, lists, outside, packets, rules,
    sessions, setups,
};
use std::thread::Threads;

/// Writes what a call gives; false where there is no such call.
pub(crate) fn answer<R: Threads + Sync>(
    rt: &R,
    page: &mut Page,
    row: &Row,
    call: &str,
    given: &str,
) -> bool {
    match call {
        "command" => commands::command(page, given),
        "hosts" => hosts::hosts(page, row),
        "policies" => hosts::policies(page, row, given),
        "key" => flows::key(page, given),
        "flows" => flows::flows(page, row, given),
        "session" => sessions::session(page, row, given),
        _ => {
            return setups::call(rt, page, row, call, given)
                || outside::call(page, row, call, given)
                || lists::call(page, call, given)
                || configurations::call(page, row, call, given)
                || rules::call(page, row, call, given)
                || captures::call(page, row, call, given)
                || packets::call(page, row, call, given)
                || fields::call(page, row, call, given);
        }
    }
    true
}
