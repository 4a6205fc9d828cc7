//! The filters of a configuration's events.
ghost use Rattle.std.specs.Prelude.{◌≡◌, ◌≤◌, length, OnOk, OnErr, IfOk};
ghost use Rattle.event_filters.specs.Filtering.{IsMade, IsSame, Passes};

use crate::counting::{Windows, reserve};
use crate::detection::stay_all;
use crate::filtering::{FilterLines, keep_all};
use crate::lines::{global_places, own_places, sizes_of};
use crate::queue::{QueueOrder, gather};
use crate::seed::CountSeed;
use conf_types::Config;
use edge_io::NoMemory;
use packet_decode::ItemHead;
use rule_types::Rule;
use std::alloc::Global;
use std::collections::HashMap;
use std::marker::Model;

/// Which events are kept of the items that were given so far.
///
/// Contracts see of each rule the size of its longest content and the places of its filters, and the
/// windows of detection filters, of the events' own filters and of the global ones; and which items the
/// value stands for (`IsGiven`).
#[derive(Drop)]
pub struct Filters {
    sizes: Vec<usize>,
    own_places: Vec<Option<u32>>,
    global_places: Vec<Option<u32>>,
    matches: Windows,
    own: Windows,
    global: Windows,
    /// The matches of the item at hand that stay, and its queue. They are kept for their memory.
    staying: Vec<u32>,
    queue: Vec<u32>,
}

impl Model for Filters {
    ghost use Rattle.event_filters.specs.Filtering.{FiltersState};

    ghost Value = { FiltersState };

    ghost view = { λ filters. record {
      sizes = filters.sizes.items;
      own_places = filters.own_places.items;
      global_places = filters.global_places.items;
      matches = filters.matches.entries;
      own = filters.own.entries;
      global = filters.global.entries;
    } };
}

impl Filters {
    /// The filters of a configuration and rules; no item was given yet. Of a configuration and rules
    /// that aren't sound nothing is said.
    pub fn new(alloc: Global, config: &Config, rules: &[Rule]) -> Result<Filters, NoMemory>
        requires { length config.now.filters ≤ 1024 }
        ensures { IfOk result (IsMade config.now rules.now) }
    {
        let filters = config.filters.as_slice();
        let seed = CountSeed::of(rules);
        Ok(Filters {
            sizes: sizes_of(alloc, rules)?,
            own_places: own_places(alloc, filters, rules)?,
            global_places: global_places(alloc, filters, rules)?,
            matches: HashMap::with_hasher(alloc, seed),
            own: HashMap::with_hasher(alloc, seed),
            global: HashMap::with_hasher(alloc, seed),
            staying: Vec::new(alloc),
            queue: Vec::new(alloc),
        })
    }

    /// Takes an item and the places of the rules that match it, in rising order, and appends the places
    /// of the rules whose events are kept, in the order of their lines.
    ///
    /// The configuration and the rules are those that the filters were made of: of others nothing is
    /// said. Where memory is lacking, the filters and `out` are as before.
    pub fn pass(
        &mut self,
        config: &Config,
        rules: &[Rule],
        head: &ItemHead,
        hits: &[u32],
        out: &mut Vec<u32>,
    ) -> Result<(), NoMemory>
        ensures passes { OnOk result (Passes config.now rules.now self.old out.old.items
            (record { head = head.now; hits = hits.now }) self.new out.new.items) }
        ensures same { OnErr result (IsSame self.old self.new) }
        ensures unchanged { OnErr result (out.new.items ≡ out.old.items) }
    {
        let count = hits.len();
        reserve(&mut self.matches, count)?;
        reserve(&mut self.own, count)?;
        reserve(&mut self.global, count)?;
        self.staying.clear();
        self.staying.reserve(count)?;
        self.queue.clear();
        self.queue.reserve(count)?;
        out.reserve(count)?;
        stay_all(&mut self.matches, rules, head, hits, &mut self.staying);
        let order = QueueOrder {
            by_priority: config.queue.by_priority,
            rules,
            sizes: &self.sizes,
        };
        gather(config.queue, order, &self.staying, &mut self.queue);
        let lines = FilterLines {
            filters: config.filters.as_slice(),
            suppress: config.suppress.as_slice(),
            rules,
            own_places: &self.own_places,
            global_places: &self.global_places,
        };
        keep_all(
            &mut self.own,
            &mut self.global,
            lines,
            head,
            &self.queue,
            out,
        );
        Ok(())
    }
}
