//! Which sessions and datagrams a made capture has, packet by packet.
ghost use Rattle.std.specs.Prelude.{◌≡◌, ◌+◌, ◌<◌, ◌≤◌, length, IfOk};
ghost use Rattle.pcap_input.specs.Generated.{first_session, session_at, segment_at, session_after, has_payload, payload_at, state_after, first_traffic, made_of_session, made_segment, made_datagram, made, IsMade};

use crate::draws::Draws;
use crate::frames::{Endpoint, Segment, udp_frame};
use std::alloc::{AllocError, Global};

/// How many sessions there are.
const SESSIONS: usize = 16;

/// The flags of TCP that are sent.
const SYN: u8 = 2;

const PSH: u8 = 8;

const ACK: u8 = 16;

/// The end that serves the sessions, and the one that the datagrams go to.
const WEB_SERVER: Endpoint = Endpoint {
    net: 2,
    host: 1,
    port: 80,
};

const NAME_SERVER: Endpoint = Endpoint {
    net: 2,
    host: 2,
    port: 53,
};

/// What a session sends next. Data and their acknowledgement take turns for ever.
#[derive(Clone, Copy, Debug, PartialEq, Eq)]
pub(crate) enum Turn {
    Syn,
    SynAck,
    Established,
    Data,
    DataAck,
}

impl Turn {
    /// Only a turn of data has a payload.
    fn has_payload(self) -> bool
        ensures { result ≡ has_payload self }
    {
        matches!(self, Turn::Data)
    }
}

/// A TCP session: the sequence numbers that its client and its server send next, and its turn.
#[derive(Clone, Copy, Debug, PartialEq, Eq)]
pub(crate) struct TrafficSession {
    pub client: u32,
    pub server: u32,
    pub turn: Turn,
}

impl TrafficSession {
    /// Session `number` before its first turn.
    fn first(number: u8) -> TrafficSession
        ensures { result ≡ first_session number }
    {
        TrafficSession {
            client: 1000 * u32::from(number),
            server: 500_000,
            turn: Turn::Syn,
        }
    }

    /// What session `number` sends at its turn.
    #[tactic(auto, unfolding(crate::specs::Generated::segment_at))]
    fn segment(self, number: u8) -> Segment
        requires { number < 16 }
        ensures { result ≡ segment_at number self.client self.server self.turn }
    {
        let client = Endpoint {
            net: 1,
            host: 1 + number,
            port: 40_000 + u16::from(number),
        };
        let to_server = Segment {
            source: client,
            destination: WEB_SERVER,
            seq: self.client,
            ack: self.server,
            flags: ACK,
        };
        let to_client = Segment {
            source: WEB_SERVER,
            destination: client,
            seq: self.server,
            ack: self.client,
            flags: ACK,
        };
        match self.turn {
            Turn::Syn => Segment {
                ack: 0,
                flags: SYN,
                ..to_server
            },
            Turn::SynAck => Segment {
                flags: SYN + ACK,
                ..to_client
            },
            Turn::Established => to_server,
            Turn::Data => Segment {
                flags: PSH + ACK,
                ..to_server
            },
            Turn::DataAck => to_client,
        }
    }

    /// The session after its turn.
    #[tactic(auto, unfolding(crate::specs::Generated::session_after))]
    fn after(self) -> TrafficSession
        ensures { result ≡ session_after self.client self.server self.turn }
    {
        match self.turn {
            Turn::Syn => TrafficSession {
                client: self.client.wrapping_add(1),
                turn: Turn::SynAck,
                ..self
            },
            Turn::SynAck => TrafficSession {
                server: self.server.wrapping_add(1),
                turn: Turn::Established,
                ..self
            },
            Turn::Established => TrafficSession {
                turn: Turn::Data,
                ..self
            },
            Turn::Data => TrafficSession {
                client: self.client.wrapping_add(64),
                turn: Turn::DataAck,
                ..self
            },
            Turn::DataAck => TrafficSession {
                turn: Turn::Data,
                ..self
            },
        }
    }
}

/// The traffic that a capture is made of: the numbers that are drawn, and the sessions.
#[derive(Drop)]
pub(crate) struct Traffic {
    draws: Draws,
    sessions: [TrafficSession; SESSIONS],
}

impl Traffic {
    /// The traffic of a seed, before its first packet.
    pub fn new(seed: u32) -> Traffic
        ensures { result ≡ first_traffic seed }
    {
        let mut sessions = [TrafficSession::first(0); SESSIONS];
        for number in 0..SESSIONS {
            sessions[number] = TrafficSession::first(number as u8);
        }
        Traffic {
            draws: Draws { state: seed },
            sessions,
        }
    }

    /// Session `number`.
    fn session(&self, number: u8) -> TrafficSession
        requires { number < 16 }
        ensures { result ≡ session_at self.now.sessions number }
    {
        self.sessions[number as usize]
    }

    /// The payload of a turn.
    #[tactic(auto, unfolding(crate::specs::Generated::payload_at, crate::specs::Generated::state_after))]
    fn payload(&mut self, alloc: Global, turn: Turn) -> Result<Vec<u8>, AllocError>
        ensures drawn { IfOk result (λ payload. payload.items ≡ payload_at turn self.old.draws.state) }
        ensures state { IfOk result (λ payload. self.new.draws.state
            ≡ state_after turn self.old.draws.state) }
        ensures sessions { self.new.sessions ≡ self.old.sessions }
        ensures short { IfOk result (λ payload. length payload.items ≤ 100) }
    {
        if turn.has_payload() {
            let payload = self.draws.payload(alloc)?;
            Ok(payload)
        } else {
            Ok(Vec::new(alloc))
        }
    }

    /// A segment of one of the sessions.
    fn segment(&mut self, alloc: Global) -> Result<Vec<u8>, AllocError>
        ensures made { IfOk result (λ frame. IsMade (made_segment self.old) frame.items self.new) }
        ensures short { IfOk result (λ frame. length frame.items < 1000) }
    {
        let number = self.draws.below(16) as u8;
        let session = self.session(number);
        let payload = self.payload(alloc, session.turn)?;
        self.sessions[number as usize] = session.after();
        let frame = session.segment(number).frame(alloc, &payload)?;
        Ok(frame)
    }

    /// A datagram.
    fn datagram(&mut self, alloc: Global) -> Result<Vec<u8>, AllocError>
        ensures made { IfOk result (λ frame. IsMade (made_datagram self.old) frame.items self.new) }
        ensures short { IfOk result (λ frame. length frame.items < 1000) }
    {
        let host = 1 + self.draws.below(16) as u8;
        let text = self.draws.text(alloc)?;
        let source = Endpoint {
            net: 1,
            host,
            port: 1024,
        };
        let frame = udp_frame(alloc, source, NAME_SERVER, text.as_bytes())?;
        Ok(frame)
    }

    /// The next frame: one in four is a datagram.
    pub fn frame(&mut self, alloc: Global) -> Result<Vec<u8>, AllocError>
        ensures made { IfOk result (λ frame. IsMade (made self.old) frame.items self.new) }
        ensures short { IfOk result (λ frame. length frame.items < 1000) }
    {
        if self.draws.below(4) == 0 {
            let frame = self.datagram(alloc)?;
            Ok(frame)
        } else {
            let frame = self.segment(alloc)?;
            Ok(frame)
        }
    }
}
