//! What is kept of a flow between its jobs.

ghost use Rattle.std.specs.Prelude.{◌≡◌, None};
ghost use Rattle.flow_lanes.specs.Given.{packet_of};
ghost use Rattle.flow_lanes.specs.Sound.{ends_of};

use crate::arrival::Arrival;
use crate::facts::{FlowFacts, ends_of};
use crate::session::FlowSession;
use flowbit_state::Bits;
use std::collections::HashMap;
use std::marker::Model;

/// A session that is there between two jobs, and its bits.
#[derive(Drop)]
pub(crate) struct FlowState {
    pub session: FlowSession,
    pub bits: Bits,
}

/// A flow that has not ended. Contracts see what is known of it and what its next job finds (`KeptFlow` of
/// specs/LanesAfter).
#[derive(Drop)]
pub(crate) struct Flow {
    pub facts: FlowFacts,
    pub found: Option<FlowState>,
}

impl Model for Flow {
    ghost use Rattle.flow_lanes.specs.LanesAfter.{KeptFlow};
    ghost use Rattle.flowbit_state.specs.contracts.bits.Bits as bits;
    ghost use Rattle.std.specs.Coded.{codes};

    ghost Value = { KeptFlow };

    ghost coded = { Prim.hlevel (codes, bits.the_row.coded) };

    ghost view = { λ flow. record { facts = flow.facts; found = flow.found } };

    ghost use Rattle.flow_lanes.specs.Kept.{IsKept};

    ghost invariant = { IsKept };
}

/// The flows that have not ended, by their numbers.
pub(crate) type OpenFlows = HashMap<u64, Flow>;

impl Flow {
    /// The flow of a packet before its first packet.
    pub fn new(p: &Arrival) -> Flow
        ensures facts { result.facts ≡ record { ends = ends_of (packet_of p.now); packets = 0 } }
        ensures found { result.found ≡ None }
    {
        Flow {
            facts: FlowFacts {
                ends: ends_of(p),
                packets: 0,
            },
            found: None,
        }
    }
}
