//! The queue of an item's events.
ghost use Rattle.std.specs.Prelude.{◌≡◌, ◌+◌, ◌<◌, ◌≤◌, [], length, take, slice_index, vec_len, vec_capacity};
ghost use Rattle.std.specs.List.{list_any, position_or_len};
ghost use Rattle.event_filters.specs.Queue.{is_alert, passes_item, gives_event, content_size, longest_content, priority_at, order_of, joined, ordered, first_events, with_event, queued_by};

use conf_types::QueueLimits;
use rule_types::{Action, Opt, Rule};

fn is_alert(action: Action) -> bool
    ensures { result ≡ is_alert action }
{
    match action {
        Action::Alert => true,
        Action::Pass => false,
    }
}

/// Whether the rule at this place is a pass rule.
fn passes_item(rules: &[Rule], place: u32) -> bool
    ensures { result ≡ passes_item rules.now place }
{
    match rules.get(place as usize) {
        Some(rule) => !is_alert(rule.action),
        None => false,
    }
}

/// Whether the rule at this place is an alert rule that gives an event.
fn gives_event(rules: &[Rule], place: u32) -> bool
    ensures { result ≡ gives_event rules.now place }
{
    match rules.get(place as usize) {
        Some(rule) => is_alert(rule.action) && !rule.noalert,
        None => false,
    }
}

/// The bytes of a content that isn't negated.
fn content_size(option: &Opt) -> usize
    ensures { result ≡ content_size option.now }
{
    match option {
        Opt::Content(content) => {
            if content.negated {
                0
            } else {
                content.bytes.bytes().len()
            }
        }
        _ => 0,
    }
}

/// The bytes of the rule's longest content that isn't negated; 0 where there is none.
pub(crate) fn longest_content(rule: &Rule) -> usize
    ensures { result ≡ longest_content rule.now }
{
    let mut longest = 0;
    for option in rule.opts.as_slice() {
        longest = longest.max(content_size(option));
    }
    longest
}

fn priority_at(rules: &[Rule], place: u32) -> u32
    ensures { result ≡ priority_at rules.now place }
{
    match rules.get(place as usize) {
        Some(rule) => rule.priority,
        None => 0,
    }
}

fn size_at(sizes: &[usize], place: u32) -> usize
    ensures { result ≡ slice_index sizes.now place }
{
    match sizes.get(place as usize) {
        Some(size) => *size,
        None => 0,
    }
}

/// How the events of a queue are ordered: by priority, or else by the sizes of the longest contents.
#[derive(Clone, Copy)]
pub(crate) struct QueueOrder<'a> {
    pub by_priority: bool,
    pub rules: &'a [Rule],
    pub sizes: &'a [usize],
}

/// Whether the first event comes before the second, whatever the order of their rules.
fn comes_before(order: QueueOrder<'_>, first: u32, second: u32) -> bool
    ensures { result ≡ order_of order.entry first second }
{
    if order.by_priority {
        priority_at(order.rules, first) < priority_at(order.rules, second)
    } else {
        size_at(order.sizes, second) < size_at(order.sizes, first)
    }
}

/// The place of an event among others in their order.
fn place_for(order: QueueOrder<'_>, queue: &[u32], event: u32) -> usize
    ensures place { result ≡ position_or_len (order_of order.entry event) queue.now }
    ensures within { result ≤ length queue.now }
{
    for (place, next) in queue.iter().enumerate() {
        if comes_before(order, event, *next) {
            return place;
        }
    }
    queue.len()
}

/// Puts an event among others in their order; there is room for it.
fn join(order: QueueOrder<'_>, queue: &mut Vec<u32>, event: u32)
    requires { vec_len queue.old < vec_capacity queue.old }
    ensures joined { queue.new.items ≡ joined (order_of order.entry) queue.old.items event }
    ensures longer { vec_len queue.new ≡ vec_len queue.old + 1 }
    ensures room { vec_capacity queue.old ≤ vec_capacity queue.new }
{
    let place = place_for(order, queue, event);
    match queue.insert(place, event) {
        Ok(()) => {}
        // There is room, as the caller has to see to.
        Err(_) => unreachable!(),
    }
}

/// Puts the event of the rule at this place among others in their order, where the rule gives one and
/// no more than `most` are there; there is room for it.
fn add(order: QueueOrder<'_>, most: u32, queue: &mut Vec<u32>, place: u32)
    requires { vec_len queue.old < vec_capacity queue.old }
    ensures added { queue.new.items
        ≡ with_event (order_of order.entry) most order.entry.rules.now queue.old.items place }
    ensures few { vec_len queue.new ≤ vec_len queue.old + 1 }
    ensures room { vec_capacity queue.old ≤ vec_capacity queue.new }
{
    if queue.len() < most as usize && gives_event(order.rules, place) {
        join(order, queue, place);
    }
}

/// Puts the first events of these rules into the queue, in order.
fn fill(order: QueueOrder<'_>, most: u32, places: &[u32], queue: &mut Vec<u32>)
    requires empty { queue.old.items ≡ [] }
    requires room { length places.now ≤ vec_capacity queue.old }
    ensures filled { queue.new.items
        ≡ ordered (order_of order.entry) (first_events most order.entry.rules.now places.now) }
    ensures few { vec_len queue.new ≤ length places.now }
{
    for place in places {
        add(order, most, queue, *place);
    }
}

/// Whether a pass rule is among these.
fn any_passes(rules: &[Rule], places: &[u32]) -> bool
    ensures { result ≡ list_any (passes_item rules.now) places.now }
{
    places.iter().any(|place| passes_item(rules, *place))
}

/// Puts the events that these rules give into the empty queue: none where a pass rule is among them;
/// else the first ones, ordered, and no more than are logged. There is room for them.
pub(crate) fn gather(
    limits: QueueLimits,
    order: QueueOrder<'_>,
    places: &[u32],
    queue: &mut Vec<u32>,
)
    requires order { order.by_priority ≡ limits.by_priority }
    requires empty { queue.old.items ≡ [] }
    requires room { length places.now ≤ vec_capacity queue.old }
    ensures queued { queue.new.items
        ≡ queued_by limits order.entry.rules.now order.entry.sizes.now places.now }
    ensures few { vec_len queue.new ≤ length places.now }
{
    if any_passes(order.rules, places) {
        return;
    }
    fill(order, limits.max_queue, places, queue);
    queue.truncate(limits.log as usize);
}
