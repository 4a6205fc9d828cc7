//! The rules in groups, and the candidates among them for an item.

ghost use Rattle.std.specs.Prelude.{◌≡◌, ℕ, ◌≤◌, ◌<◌, List, true, length, map, filter, take, drop, slice_get, IfOk, OnOk, OnErr};
ghost use Rattle.rule_types.specs.declared.rule.Rule.{Rule};
ghost use Rattle.fast_pattern.specs.FastPattern.{bytes_of, pattern_of};
ghost use Rattle.fast_pattern.specs.Candidates.{occurs_if_any, ContentsOccur};

use crate::choice::chosen;
use crate::doors::{door_table, lets_in};
use crate::header::{RuleHead, Transport};
use crate::sides::{Sides, is_plain};
use edge_io::{NoMemory, Text};
use packet_decode::{Body, ItemHead};
use pattern_search::{Automaton, Effort, TABLE_WORDS};
use rule_types::{Opt, Rule};
use std::alloc::{AllocError, Global};

/// Rules by what a packet must have to be worth a try: one automaton has the fast patterns of them all, and
/// those that have none are in indexes by port, or in a list where an item has no ports.
#[derive(Drop)]
pub struct Groups {
    rules: Vec<RuleHead>,
    doors: Vec<u32>,
    automaton: Automaton,
    tcp: Sides,
    udp: Sides,
    icmp: Vec<u32>,
    other: Vec<u32>,
}

/// `len` bytes from a place on, as far as they are there.
fn part(bytes: &[u8], from: usize, len: usize) -> &[u8]
    ensures { result.now ≡ take len (drop from bytes.now) }
{
    let from = from.min(bytes.len());
    let rest = &bytes[from..];
    &rest[..len.min(rest.len())]
}

/// The bytes of the content at a place; none where there is no content.
fn content_bytes(options: &[Opt], place: usize) -> &[u8]
    ensures { result.now ≡ bytes_of (slice_get options.now place) }
{
    if options.len() <= place {
        return &[];
    }
    match &options[place] {
        Opt::Content(content) => content.bytes.bytes(),
        _ => &[],
    }
}

impl Groups {
    ghost use Rattle.fast_pattern.specs.Grouping.{asked_of, fits_at, text_of, texts_of, AreFor, AddDue, AppendCandidates};
    ghost use Rattle.fast_pattern.specs.Kinds.{is_plain};
    ghost use Rattle.pattern_search.specs.Occurring.{numbers};

    /// The bytes of the fast pattern; none where there is none.
    fn pattern(options: &[Opt]) -> &[u8]
        ensures { result.now ≡ text_of (pattern_of options.now) }
    {
        match chosen(options) {
            None => &[],
            Some(sought) => part(
                content_bytes(options, sought.place),
                sought.from,
                sought.len,
            ),
        }
    }

    /// The patterns of the rules.
    fn patterns(alloc: Global, rules: &[Rule]) -> Result<Vec<Text>, NoMemory>
        ensures { IfOk result (λ patterns. patterns.items ≡ texts_of rules.now) }
    {
        let mut patterns = Vec::new(alloc);
        for rule in rules {
            patterns.push(Text::copy(alloc, Groups::pattern(rule.opts.as_slice()))?)?;
        }
        Ok(patterns)
    }

    /// What is asked of the rules' headers.
    fn headers(alloc: Global, rules: &[Rule]) -> Result<Vec<RuleHead>, NoMemory>
        ensures { IfOk result (λ headers. headers.items ≡ map asked_of rules.now) }
    {
        let mut headers = Vec::new(alloc);
        for rule in rules {
            headers.push(RuleHead::of(alloc, rule)?)?;
        }
        Ok(headers)
    }

    /// The rules without a pattern that may fit the kind.
    fn plain(
        alloc: Global,
        rules: &[RuleHead],
        patterns: &[Text],
        kind: Transport,
    ) -> Result<Vec<u32>, NoMemory>
        requires same { length rules.now ≡ length patterns.now }
        requires few { length rules.now ≤ 65536 }
        ensures { IfOk result (λ plain. plain.items ≡ numbers (is_plain rules.now patterns.now kind) 0 (length rules.now)) }
    {
        let mut plain = Vec::new(alloc);
        for place in 0..rules.len() {
            if is_plain(rules, patterns, kind, place) {
                plain.push(place as u32)?;
            }
        }
        Ok(plain)
    }

    /// The groups of the rules, at most 65536.
    pub fn build(alloc: Global, rules: &[Rule]) -> Result<Groups, NoMemory>
        requires { length rules.now ≤ 65536 }
        ensures { IfOk result (λ groups. AreFor groups rules.now) }
    {
        let patterns = Groups::patterns(alloc, rules)?;
        let headers = Groups::headers(alloc, rules)?;
        Ok(Groups {
            doors: door_table(alloc, &headers)?,
            automaton: Automaton::of(alloc, &patterns)?,
            tcp: Sides::of(alloc, &headers, &patterns, Transport::Tcp)?,
            udp: Sides::of(alloc, &headers, &patterns, Transport::Udp)?,
            icmp: Groups::plain(alloc, &headers, &patterns, Transport::Icmp)?,
            other: Groups::plain(alloc, &headers, &patterns, Transport::Other)?,
            rules: headers,
        })
    }

    /// Adds the rules without a pattern that are asked for by an item that carries this; one that fits either
    /// way may come twice.
    fn push_due(&self, body: &Body, places: &mut Vec<u32>) -> Result<(), AllocError>
        ensures { OnOk result (AddDue self.now body.now places.old.items places.new.items) }
    {
        match body {
            Body::Tcp(head) => self.tcp.push_places(head.sport, head.dport, places)?,
            Body::Stream { sport, dport } => self.tcp.push_places(*sport, *dport, places)?,
            Body::Udp { sport, dport } => self.udp.push_places(*sport, *dport, places)?,
            Body::Icmp { .. } => places.extend_from_slice(&self.icmp)?,
            Body::Other | Body::Fragment => places.extend_from_slice(&self.other)?,
        }
        Ok(())
    }

    /// Whether the header of the rule at a place fits.
    #[tactic(auto, unfolding(crate::specs::Grouping::fits_at))]
    fn fits_at(rules: &[RuleHead], place: u32, body: &Body) -> bool
        ensures { result ≡ fits_at rules.now body.now place }
    {
        if rules.len() <= place as usize {
            return false;
        }
        rules[place as usize].fits(body)
    }

    /// Of these places those whose rules' headers fit.
    fn fitting(
        alloc: Global,
        rules: &[RuleHead],
        places: &[u32],
        body: &Body,
    ) -> Result<Vec<u32>, NoMemory>
        ensures { IfOk result (λ fitting. fitting.items ≡ filter (fits_at rules.now body.now) places.now) }
    {
        let mut fitting = Vec::new(alloc);
        for place in places {
            if Groups::fits_at(rules, *place, body) {
                fitting.push(*place)?;
            }
        }
        Ok(fitting)
    }

    /// The candidates of an item that the doors let in, and what finding them took.
    // Kept out of the line of items that they don't: these cost a glance.
    #[inline(never)]
    fn find_let_in(
        &self,
        alloc: Global,
        head: &ItemHead,
        payload: &[u8],
        out: &mut Vec<u32>,
    ) -> Result<Effort, NoMemory>
        ensures appended { OnOk result (AppendCandidates self.now head.now payload.now out.old.items out.new.items) }
        ensures unchanged { OnErr result (out.new.items ≡ out.old.items) }
    {
        let mut effort = Effort::NONE;
        let mut places = self.automaton.find_unordered(alloc, payload, &mut effort)?;
        self.push_due(&head.body, &mut places)?;
        places.sort_unstable();
        places.dedup();
        let found = Groups::fitting(alloc, &self.rules, &places, &head.body)?;
        out.extend_from_slice(&found)?;
        Ok(effort)
    }

    /// Appends the rules that are worth being tried on the item, by their places, in ascending order. Where
    /// memory is lacking `out` stays.
    pub fn candidates(
        &self,
        alloc: Global,
        head: &ItemHead,
        payload: &[u8],
        out: &mut Vec<u32>,
    ) -> Result<(), NoMemory>
        ensures appended { OnOk result (AppendCandidates self.now head.now payload.now out.old.items out.new.items) }
        ensures unchanged { OnErr result (out.new.items ≡ out.old.items) }
    {
        self.find_candidates(alloc, head, payload, out)?;
        Ok(())
    }

    /// Appends the candidates of an item, as `candidates` does, and tells what finding them took.
    #[inline(always)]
    pub fn find_candidates(
        &self,
        alloc: Global,
        head: &ItemHead,
        payload: &[u8],
        out: &mut Vec<u32>,
    ) -> Result<Effort, NoMemory>
        ensures appended { OnOk result (AppendCandidates self.now head.now payload.now out.old.items out.new.items) }
        ensures unchanged { OnErr result (out.new.items ≡ out.old.items) }
    {
        // Where no header fits there is no candidate, and the payload isn't looked at.
        if self.doors.len() == TABLE_WORDS && !lets_in(&self.doors, &head.body) {
            return Ok(Effort::NONE);
        }
        self.find_let_in(alloc, head, payload, out)
    }
}

/// A law for callers: where every content of a rule that isn't negated occurs in the payload, with case kept
/// or folded, its fast pattern occurs there, if it has one. So a rule that matches is a candidate.
pub fn matching_needs_the_fast_pattern()
    ensures { (rule : Rule) (payload : List ℕ) → ContentsOccur rule.opts payload
        → occurs_if_any (pattern_of rule.opts) payload ≡ true }
{}
