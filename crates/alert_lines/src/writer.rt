//! The events of items, and their texts on the way to a sink.
ghost use Rattle.std.specs.Prelude.{◌≡◌, ◌≢◌, [], ◌∷◌, Err, All, OnOk, IfOk, map};
ghost use Rattle.conf_types.specs.Sound as conf;
ghost use Rattle.rule_types.specs.Sound.{IsSound};
ghost use Rattle.alert_lines.specs.Beside.{beside, by_place};
ghost use Rattle.alert_lines.specs.Gathering.{Emits};
ghost use Rattle.alert_lines.specs.Matching.{ShowsMatches};
ghost use Rattle.alert_lines.specs.Showing.{IsWriterAfter, Shows, StaysAfter, sending_of, showing, shown_by, tally_in, waiting_in};
ghost use Rattle.alert_lines.specs.Sourcing.{source_by, sourced_items};

use crate::fault::WriteFault;
use crate::lines::{Subject, offer, show_places};
use crate::record::LinkedRecord;
use crate::sources::Sources;
use crate::tally::{Tally, sum};
use command_words::AlertForm;
use conf_types::Config;
use edge_io::{NoMemory, Sink};
use event_filters::Filters;
use flow_lanes::{Hits, JobHits, Matches};
use rule_types::Rule;
use std::alloc::Global;

/// By what items are shown: a configuration, its rules, and the form of alerts.
#[derive(Clone, Copy)]
pub struct Shown<'a> {
    pub config: &'a Config,
    pub rules: &'a [Rule],
    pub form: AlertForm,
}

/// The events of items, and their texts on the way to a sink.
///
/// Contracts see which items it was given (`IsWriterAfter`), what it counted (`tally_in`), and the texts that wait
/// (`waiting_in`).
#[derive(Drop)]
pub struct AlertWriter {
    /// The filters that decide which events are kept.
    filters: Filters,
    tally: Tally,
    /// The places of the rules whose events of the item at hand are kept: they are kept here for their memory.
    kept: Vec<u32>,
    /// The texts that wait for a write.
    block: Vec<u8>,
}

impl AlertWriter {
    /// No item was given yet, and no text waits.
    pub fn new(alloc: Global, config: &Config, rules: &[Rule]) -> Result<AlertWriter, NoMemory>
        requires config { conf.IsSound config.now }
        requires rules { All (IsSound config.now.classes) rules.now }
        ensures hold { IfOk result (IsWriterAfter config.now rules.now []) }
        ensures none { IfOk result (λ writer. waiting_in writer ≡ []) }
    {
        Ok(AlertWriter {
            filters: Filters::new(alloc, config, rules)?,
            tally: Tally {
                items: 0,
                hits: 0,
                alerts: 0,
            },
            kept: Vec::new(alloc),
            block: Vec::new(alloc),
        })
    }

    /// What was counted of the items so far.
    pub fn tally(&self) -> Tally
        ensures { result ≡ tally_in self.now }
    {
        self.tally
    }

    /// Takes the matches of jobs, in the order of the jobs: makes the texts of the events that are kept, after those
    /// that wait, and counts all items of the jobs. Those that no rule matches give nothing but their count.
    pub fn show<A: Sink>(
        &mut self,
        by: &Shown<'_>,
        sources: Sources<'_>,
        found: &Matches,
        alerts: &mut A,
    ) -> Result<(), WriteFault>
        requires { All (IsSound by.now.config.now.classes) by.now.rules.now }
        ensures { ShowsMatches (shown_by by.now) (source_by sources.entry) found.now
            (showing A.Sink self.old alerts.old) (showing A.Sink self.new alerts.new) result }
    {
        let items = sum(self.tally.items, found.items)?;
        self.show_hits(by, sources, &found.hits, alerts)?;
        self.tally.items = items;
        Ok(())
    }

    /// Writes the texts that wait, whole. Takes no memory.
    pub fn write_out<A: Sink>(&mut self, alerts: &mut A) -> Result<(), WriteFault>
        ensures emits { Emits []
            (sending_of (showing A.Sink self.old alerts.old)) (sending_of (showing A.Sink self.new alerts.new)) result }
        ensures emptied { OnOk result (waiting_in self.new ≡ []) }
        ensures kind { result ≢ Err WriteFault.NoMemory }
        ensures holds { StaysAfter self.old self.new }
        ensures tally { tally_in self.new ≡ tally_in self.old }
    {
        offer(&mut self.block, alerts)
    }

    /// Makes the texts of the items of jobs, in the order of the jobs.
    fn show_hits<A: Sink>(
        &mut self,
        by: &Shown<'_>,
        sources: Sources<'_>,
        jobs: &[JobHits],
        alerts: &mut A,
    ) -> Result<(), WriteFault>
        requires { All (IsSound by.now.config.now.classes) by.now.rules.now }
        ensures { Shows (shown_by by.now)
            (sourced_items (by_place (source_by sources.entry) 0 jobs.now))
            (showing A.Sink self.old alerts.old) (showing A.Sink self.new alerts.new) result }
    {
        let mut place = 0;
        for job in jobs {
            let origin = sources.of(place);
            let items = job.items.as_slice();
            self.show_items(by, origin, items, alerts)?;
            place += 1;
        }
        Ok(())
    }

    /// Makes the texts of the items of a job, one after another.
    fn show_items<A: Sink>(
        &mut self,
        by: &Shown<'_>,
        origin: &LinkedRecord,
        items: &[Hits],
        alerts: &mut A,
    ) -> Result<(), WriteFault>
        requires { All (IsSound by.now.config.now.classes) by.now.rules.now }
        ensures { Shows (shown_by by.now) (map (beside origin.now) items.now)
            (showing A.Sink self.old alerts.old) (showing A.Sink self.new alerts.new) result }
    {
        for hits in items {
            self.show_item(by, origin, hits, alerts)?;
        }
        Ok(())
    }

    /// Makes the texts of an item, after those that wait.
    // Kept out of the line of most jobs, which have none that a rule matches.
    #[inline(never)]
    fn show_item<A: Sink>(
        &mut self,
        by: &Shown<'_>,
        origin: &LinkedRecord,
        hits: &Hits,
        alerts: &mut A,
    ) -> Result<(), WriteFault>
        requires { All (IsSound by.now.config.now.classes) by.now.rules.now }
        ensures { Shows (shown_by by.now) (beside origin.now hits.now ∷ [])
            (showing A.Sink self.old alerts.old) (showing A.Sink self.new alerts.new) result }
    {
        self.kept.clear();
        let matching = hits.rules.as_slice();
        self.filters
            .pass(by.config, by.rules, &hits.head, matching, &mut self.kept)?;
        let subject = Subject {
            form: by.form,
            classes: &by.config.classes,
            rules: by.rules,
            origin,
            head: &hits.head,
        };
        let count = show_places(
            &subject,
            self.tally.alerts,
            &self.kept,
            &mut self.block,
            alerts,
        )?;
        self.tally = self.tally.with(matching.len(), count)?;
        Ok(())
    }
}
