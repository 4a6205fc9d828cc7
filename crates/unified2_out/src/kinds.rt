//! The numbers of the format: kinds of records and the lengths of their parts.

/// The bytes of a record's kind and length.
pub(crate) const HEADER: usize = 8;

/// The most bytes of a body.
pub(crate) const MAX_BODY: usize = 1_048_576;

/// "Unified2 IDS Event": the kind, and the bytes of its body.
pub(crate) const EVENT: u32 = 7;

pub(crate) const EVENT_LEN: usize = 52;

/// "Unified2 IDS Event IP6": the kind, and the bytes of its body.
pub(crate) const EVENT_IP6: u32 = 72;

pub(crate) const EVENT_IP6_LEN: usize = 76;

/// The bytes of an event's nine numbers of four bytes, and with the header before them.
pub(crate) const EVENT_NUMBERS: usize = 36;

/// The bytes of an event's numbers, but for its addresses.
pub(crate) const EVENT_OTHERS: u32 = EVENT_NUMBERS as u32 + 8;

pub(crate) const EVENT_HEAD: usize = HEADER + EVENT_NUMBERS;

/// "Unified2 Packet": the kind, and the bytes of its seven numbers.
pub(crate) const PACKET: u32 = 2;

pub(crate) const PACKET_NUMBERS: usize = 28;

pub(crate) const PACKET_HEAD: usize = HEADER + PACKET_NUMBERS;
