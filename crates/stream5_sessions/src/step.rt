/// The settings that a session's packet is read by: those of the session at hand are those of the
/// end to which its first packet went.
#[derive(Clone, Copy, Debug, PartialEq, Eq)]
pub struct SessionRules {
    /// Seconds from a packet to the next within one session, of the session at hand.
    pub timeout: u32,
    /// The session at hand is taken up only after a handshake.
    pub needed: bool,
    /// A session that this packet begins is taken up only after a handshake.
    pub needed_new: bool,
}

/// What a packet tells of its session. By default, nothing.
#[derive(Clone, Copy, Debug, Default, PartialEq, Eq)]
pub struct Step {
    /// A session ended before the packet.
    pub ended_before: bool,
    /// The packet begins a session.
    pub begun: bool,
    /// The packet has a session.
    pub tracked: bool,
    /// The session is established.
    pub established: bool,
    /// The packet is from the client, where one is known.
    pub from_client: Option<bool>,
    /// The packet's data count, if it has any.
    pub takes_data: bool,
    /// The packet's acknowledgement counts.
    pub counts_ack: bool,
    /// The packet ends the session.
    pub ends: bool,
    /// The client's base, if this packet sets it: the sequence number of its first data.
    pub client_base: Option<u32>,
    /// The server's base, if this packet sets it.
    pub server_base: Option<u32>,
}
