//! What rules that match ask of reassembly (specs/Flows).

ghost use Rattle.std.specs.Prelude.{◌≡◌, fold};
ghost use Rattle.flow_lanes.specs.Flows.{sides_after_hit, sides_after_rule, sides_after, steered, with_side};
ghost use Rattle.flow_lanes.specs.Reach.{KeepsWithin};

use crate::answer::Hits;
use crate::session::FlowSession;
use rule_types::{Opt, Rule, Side};

/// Whether each side's data are put together.
#[derive(Clone, Copy)]
pub(crate) struct SidesOn {
    pub client: bool,
    pub server: bool,
}

/// A side that is named is turned on or off.
fn with_side(on: bool, side: Side, sides: SidesOn) -> SidesOn
    ensures { result ≡ with_side on side sides }
{
    match side {
        Side::Client => SidesOn {
            client: on,
            ..sides
        },
        Side::Server => SidesOn {
            server: on,
            ..sides
        },
        _ => SidesOn {
            client: on,
            server: on,
        },
    }
}

/// The sides after an option.
fn sides_after(sides: SidesOn, opt: &Opt) -> SidesOn
    ensures { result ≡ sides_after sides opt.now }
{
    match opt {
        Opt::Reassemble { on, side } => with_side(*on, *side, sides),
        _ => sides,
    }
}

/// The sides after all options of a rule.
fn sides_after_opts(mut sides: SidesOn, opts: &[Opt]) -> SidesOn
    ensures { result ≡ fold sides_after sides opts.now }
{
    for opt in opts {
        sides = sides_after(sides, opt);
    }
    sides
}

/// The sides after the rule at a place.
fn sides_after_rule(rules: &[Rule], sides: SidesOn, place: u32) -> SidesOn
    ensures { result ≡ sides_after_rule rules.now sides place }
{
    match rules.get(place as usize) {
        Some(rule) => sides_after_opts(sides, rule.opts.as_slice()),
        None => sides,
    }
}

/// The sides after all rules that match an item.
fn sides_after_hit(rules: &[Rule], mut sides: SidesOn, hit: &Hits) -> SidesOn
    ensures { result ≡ sides_after_hit rules.now sides hit.now }
{
    for place in hit.rules.as_slice() {
        sides = sides_after_rule(rules, sides, *place);
    }
    sides
}

/// The sides after all items.
fn sides_after_hits(rules: &[Rule], mut sides: SidesOn, hits: &[Hits]) -> SidesOn
    ensures { result ≡ fold (sides_after_hit rules.now) sides hits.now }
{
    for hit in hits {
        sides = sides_after_hit(rules, sides, hit);
    }
    sides
}

/// Turns a session's sides on and off, as the rules ask that match its items.
#[inline(always)]
#[tactic(auto, unfolding(crate::specs::Flows::steered))]
pub(crate) fn steer(rules: &[Rule], hits: &[Hits], session: &mut FlowSession)
    ensures state { session.new ≡ steered rules.now hits.now session.old }
    ensures within { KeepsWithin session.old session.new }
    ensures same { session.new.state ≡ session.old.state }
{
    let before = SidesOn {
        client: session.client.on,
        server: session.server.on,
    };
    let SidesOn { client, server } = sides_after_hits(rules, before, hits);
    session.client.turn(client);
    session.server.turn(server);
}
