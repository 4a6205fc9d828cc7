//! What work is worth: about how long items take, and how many threads such work is worth.
//!
//! Neither bytes nor rules tell: a payload that no header of a rule asks for costs a glance, another one as much as the
//! sieve and the walks that it lets begin, and one with candidates what their options take. So items are counted as they
//! are tried, each by what such items took when they were measured, and a batch is thought to take what the one before it
//! took. Threads help only with what other lanes than the dearest do. All costs are in nanoseconds. To try it on: 2,666
//! items without data in other lanes than the dearest are worth no second thread, 2,667 are worth three threads.

use pattern_search::Effort;
use rule_types::Opt;

/// What an item costs whatever it is: its flow, its session, the test for candidates.
const ITEM_COST: u64 = 150;

/// How many bytes of a payload are sieved for one nanosecond.
const SIEVED_BYTES: u64 = 4;

/// What a walk costs to begin: the sieve is left, and what the walk reads first is seldom at hand. A short walk took 40 to
/// 145 ns in all, by how many patterns there are and how nearly they occur.
const WALK_COST: u64 = 70;

/// What a walk costs for each byte at least. Among many patterns that nearly occur it may be six times as much.
const WALKED_COST: u64 = 2;

/// What a candidate costs whatever its options are: it took some 430 instructions where its header or a field failed.
const CANDIDATE_COST: u64 = 70;

/// How many bytes are searched for a content in one nanosecond.
const SOUGHT_BYTES: u64 = 3;

/// How many bytes an expression reads in one nanosecond: an automaton a third of that, a search for its literals more.
const READ_BYTES: u64 = 2;

/// The work that a thread is worth. Its start and its join took 44 µs on a quiet machine, and over 100 µs on others.
const THREAD_COST: u64 = 150_000;

/// The work that threads are worth at all. Beside each other lanes took up to 1.6 times the processor time that they took in
/// turn, and where 258 µs were to be spread a batch took longer in threads.
const LEAST_SPREAD: u64 = 400_000;

/// About what finding the candidates of an item cost.
#[inline]
pub(crate) fn effort_cost(effort: &Effort) -> u64 {
    let walks = effort.walks.saturating_mul(WALK_COST);
    let walked = effort.walked.saturating_mul(WALKED_COST);
    walks
        .saturating_add(walked)
        .saturating_add(effort.sieved / SIEVED_BYTES)
}

/// About what an item costs besides, by the number of its candidates and what their options cost.
#[inline]
pub(crate) fn item_cost(candidates: usize, options: u64) -> u64 {
    (candidates as u64)
        .saturating_mul(CANDIDATE_COST)
        .saturating_add(options)
        .saturating_add(ITEM_COST)
}

/// About what a candidate's options cost on this many bytes, if all of them are looked for: an expression reads all
/// bytes, and so does a search for a content, but for one, since a candidate's pattern occurs in the payload.
pub(crate) fn options_cost(opts: &[Opt], bytes: usize) -> u64 {
    let mut contents = 0u64;
    let mut expressions = 0u64;
    for opt in opts {
        match opt {
            Opt::Content(_) => contents = contents.saturating_add(1),
            Opt::Pcre { .. } => expressions = expressions.saturating_add(1),
            _ => {}
        }
    }
    let sought = contents
        .saturating_sub(1)
        .saturating_mul(bytes as u64 / SOUGHT_BYTES);
    let read = expressions.saturating_mul(bytes as u64 / READ_BYTES);
    sought.saturating_add(read)
}

/// What the next batch is thought to have beside its dearest lane: what the last one had, but at most twice what that one
/// was thought to have. So threads that start in vain, for a cheap batch after dear ones, were earned by these.
pub(crate) fn thought_beside(thought: u64, had: u64) -> u64 {
    let most = thought.saturating_mul(2).max(THREAD_COST / 2);
    had.min(most)
}

/// How many threads a batch is worth that has so much to do beside its dearest lane.
pub(crate) fn threads_worth(beside: u64) -> u64 {
    if beside < LEAST_SPREAD {
        return 1;
    }
    (beside / THREAD_COST).saturating_add(1)
}
