//! The phases of a session and what its sides have said.
ghost use Rattle.std.specs.Prelude.{◌≡◌};
ghost use Rattle.stream5_sessions.specs.Phases.{is_timed_out};

use crate::{End, SessionRules};
use edge_io::Moment;

/// Where a session is. Of UDP, `Syn` is a session in which only the client has sent, and `Est`
/// one in which the server has sent as well.
#[derive(Clone, Copy, Debug, PartialEq, Eq)]
pub(crate) enum Phase {
    /// There is no session.
    NoSession,
    /// The client's SYN was seen.
    Syn,
    /// The server's SYN with ACK was seen.
    SynAck,
    /// The handshake is whole.
    Est,
    /// The session was under way when its first packet was seen.
    Mid,
    /// Each side has sent a FIN.
    Closing,
    /// The session is only watched.
    Off,
}

impl Phase {
    ghost use Rattle.std.specs.Prelude.{◌≡◌};
    ghost use Rattle.stream5_sessions.specs.Phases.{is_open, is_established};

    /// There is a session.
    pub fn is_open(self) -> bool
        ensures { result ≡ is_open self }
    {
        self != Phase::NoSession
    }

    /// The session's items are established.
    pub fn is_established(self) -> bool
        ensures { result ≡ is_established self }
    {
        matches!(self, Phase::Est | Phase::Mid | Phase::Closing)
    }
}

/// A session between two packets.
#[derive(Clone, Copy, Debug, PartialEq, Eq)]
pub(crate) struct State {
    pub tcp: bool,
    pub phase: Phase,
    pub client: Option<End>,
    pub client_base: Option<u32>,
    pub server_base: Option<u32>,
    /// The end of the client's last FIN that counted.
    pub client_fin: Option<u32>,
    /// The end of the server's last FIN that counted.
    pub server_fin: Option<u32>,
    /// The moment of the last packet.
    pub last: Moment,
}

/// What a row of the table changes.
#[derive(Clone, Copy, Debug, PartialEq, Eq)]
pub(crate) struct Change {
    /// The phase after the packet, and before an end.
    pub phase: Phase,
    pub client: Option<End>,
    /// The bases that the packet sets.
    pub client_base: Option<u32>,
    pub server_base: Option<u32>,
    /// The packet's data and acknowledgement count.
    pub counts: bool,
    /// The packet ends the session.
    pub ends: bool,
}

impl Change {
    /// No session stands then, and the packet tells nothing.
    pub const NONE: Change = Change {
        phase: Phase::NoSession,
        client: None,
        client_base: None,
        server_base: None,
        counts: false,
        ends: false,
    };
}

/// At this moment the last packet lies further back than the timeout.
#[tactic(auto, unfolding(crate::specs::Phases::is_timed_out))]
pub(crate) fn is_timed_out(state: &State, moment: Moment, rules: &SessionRules) -> bool
    ensures { result ≡ is_timed_out state.now moment rules.now }
{
    let last = u128::from(state.last.nanos) + u128::from(rules.timeout) * 1_000_000_000;
    state.phase.is_open() && last < u128::from(moment.nanos)
}
