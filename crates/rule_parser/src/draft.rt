//! What is known of a rule while its options are read from left to right.
ghost use Rattle.std.specs.Prelude.{◌≡◌, nat_le, OnOk, IfOk, None};
ghost use Rattle.net_lists.specs.Stops.{Gives};
ghost use Rattle.rule_parser.specs.Drafts.{empty_draft, kept_count, kept, settled, with_held, with_new};

use crate::extracted::Extracted;
use crate::fault::Fault;
use crate::{Content, Opt, Period};
use edge_io::{Items, NoMemory, Text};
use net_lists::Stop;
use std::alloc::Global;

/// The class that a rule names.
#[derive(Clone, Copy)]
pub(crate) enum ClassName {
    /// The place of the class among the configuration's.
    Known(u32),
    Unknown,
}

/// The last content of a rule, which modifiers may still change.
#[derive(Drop)]
pub(crate) struct LastContent {
    pub content: Content,
    /// The content's place among the options that are kept.
    pub place: usize,
    /// The names that were extracted before it.
    pub known: usize,
    /// `rawbytes` was given.
    pub raw: bool,
    /// A `fast_pattern` was given that excludes a place.
    pub placeless: bool,
}

/// A rule as far as its options are read.
#[derive(Drop)]
pub(crate) struct RuleDraft {
    /// The options that are kept, but for the last content.
    pub opts: Items<Opt>,
    pub held: Option<LastContent>,
    /// The names that byte_extract gave, each once.
    pub names: Extracted,
    pub msg: Option<Text>,
    pub gid: Option<u32>,
    pub sid: Option<u32>,
    pub rev: Option<u32>,
    pub class: Option<ClassName>,
    pub priority: Option<u32>,
    pub noalert: bool,
    pub period: Option<Period>,
    /// A `flow` was given.
    pub flow: bool,
    /// A `dsize` was given.
    pub dsize: bool,
    /// A `fast_pattern` was given.
    pub fast: bool,
}

/// Options that a rule may keep.
pub(crate) const MOST_OPTIONS: usize = 64;

impl RuleDraft {
    /// A rule before its first option.
    pub(crate) fn new(alloc: Global) -> RuleDraft
        ensures { result ≡ empty_draft }
    {
        RuleDraft {
            opts: Items::new(alloc),
            held: None,
            names: Extracted::new(alloc),
            msg: None,
            gid: None,
            sid: None,
            rev: None,
            class: None,
            priority: None,
            noalert: false,
            period: None,
            flow: false,
            dsize: false,
            fast: false,
        }
    }

    /// Whether no further option may be kept.
    pub(crate) fn is_full(&self) -> bool
        ensures { result ≡ nat_le 64 (kept_count self.now) }
    {
        let held = usize::from(self.held.is_some());
        self.opts.as_slice().len() + held >= MOST_OPTIONS
    }

    /// Keeps one more option, after those that there are.
    #[tactic(auto, unfolding(crate::specs::Drafts::kept))]
    pub(crate) fn keep(&mut self, opt: Opt) -> Result<(), Stop<Fault>>
        ensures { Gives (with_new result self.new) (kept self.old opt) }
    {
        if self.is_full() {
            return Err(Stop::Wrong(Fault::Limit));
        }
        self.opts.push(opt)?;
        Ok(())
    }

    /// Puts the last content in its place.
    #[tactic(auto, unfolding(crate::specs::Drafts::settled))]
    pub(crate) fn settle(&mut self, alloc: Global) -> Result<(), NoMemory>
        ensures { OnOk result (self.new ≡ record self.old { opts = settled self.old; held = None }) }
    {
        let opts = std::mem::replace(&mut self.opts, Items::new(alloc));
        self.opts = with_held(opts, self.held.take())?;
        Ok(())
    }
}

/// The options with the last content in its place.
#[tactic(auto, using(crate::proofs::Settling::settling))]
fn with_held(opts: Items<Opt>, held: Option<LastContent>) -> Result<Items<Opt>, NoMemory>
    ensures { IfOk result (λ all. all ≡ with_held opts held) }
{
    let Some(held) = held else {
        return Ok(opts);
    };
    let mut opts = opts.into_vec();
    let place = held.place.min(opts.len());
    opts.insert(place, Opt::Content(held.content))?;
    Ok(Items::from_vec(opts))
}
