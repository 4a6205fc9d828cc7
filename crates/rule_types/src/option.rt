//! What an option is: a test of an item's header or payload, or a change that a match makes.

use edge_io::{PatternFlags, Text};

/// A number in an option: told, or extracted from the payload by an earlier option of the rule.
#[derive(Clone, Copy, Debug, PartialEq, Eq)]
pub enum Num {
    Value(i64),
    /// The place of the extracted name among the rule's names: 0 or 1.
    Name(u8),
}

/// How two numbers are compared.
#[derive(Clone, Copy, Debug, PartialEq, Eq)]
pub enum Cmp {
    Eq,
    Ne,
    Lt,
    Gt,
    Le,
    Ge,
    /// The two numbers have a bit in common.
    And,
    /// The first is between the two ends, which are inside.
    Within,
}

/// How bits are compared with a set of bits.
#[derive(Clone, Copy, Debug, PartialEq, Eq)]
pub enum Mode {
    /// The bits set are exactly these.
    Exact,
    /// All bits of the set are set.
    All,
    /// Some bit of the set is set.
    Any,
    /// None of the set's bits is set.
    NoneSet,
}

/// Whether a content is the rule's fast pattern (Snort Users Manual 2.9, section 3.5.22).
#[derive(Clone, Copy, Debug, PartialEq, Eq)]
pub enum FastMode {
    No,
    Yes,
    /// The content is looked for anywhere in the payload, in either case, and nothing else is asked of it.
    Only,
    /// `len` of the content's bytes from the place `from` on are the pattern.
    Part { from: u32, len: u32 },
}

/// Bytes that the payload has, or has not (section 3.5.1).
#[derive(Debug, Drop)]
pub struct Content {
    /// 1 to 2048 bytes.
    pub bytes: Text,
    pub negated: bool,
    /// ASCII letters are taken in either case.
    pub nocase: bool,
    /// Places count from where the option before ended, else from the payload's start.
    pub relative: bool,
    /// `distance` where `relative` holds, else `offset`.
    pub from: Option<Num>,
    /// `within` where `relative` holds, else `depth`.
    pub room: Option<Num>,
    pub fast: FastMode,
}

/// How the bytes of a number are read.
#[derive(Clone, Copy, Debug, PartialEq, Eq)]
pub enum Base {
    /// An unsigned number, most significant byte first unless `little` holds.
    Binary { little: bool },
    /// The digits of a text.
    Dec,
    Hex,
    Oct,
}

/// Which bytes of the payload are read as a number.
#[derive(Clone, Copy, Debug, PartialEq, Eq)]
pub struct Fetch {
    /// 1 to 4; to 10 where a text is read.
    pub bytes: u8,
    pub offset: Num,
    pub relative: bool,
    pub base: Base,
}

/// What a match does with a bit of its session (section 3.6.10).
#[derive(Clone, Copy, Debug, PartialEq, Eq)]
pub enum BitChange {
    Set,
    Unset,
    Toggle,
}

/// What a rule asks of the item's session, and of how the item came to be (section 3.6.9).
#[derive(Clone, Copy, Debug, PartialEq, Eq)]
pub struct FlowOpt {
    /// `established`, or `not_established`.
    pub established: Option<bool>,
    pub stateless: bool,
    /// `from_client` or `to_server`, or `from_server` or `to_client`.
    pub from_client: Option<bool>,
    /// `only_stream`, or `no_stream`.
    pub stream: Option<bool>,
    /// `only_frag`, or `no_frag`.
    pub frag: Option<bool>,
}

/// A number of a packet's header, or the length of its payload.
#[derive(Clone, Copy, Debug, PartialEq, Eq)]
pub enum Field {
    Ttl,
    Tos,
    Id,
    /// In units of 8 bytes.
    FragOffset,
    IpProto,
    Seq,
    Ack,
    Window,
    Itype,
    Icode,
    IcmpId,
    IcmpSeq,
    /// The bytes of the payload.
    Dsize,
}

/// A side of a session.
#[derive(Clone, Copy, Debug, PartialEq, Eq)]
pub enum Side {
    Client,
    Server,
    Both,
    Either,
}

/// An option that is kept, in the order of the rule.
#[derive(Debug, Drop)]
pub enum Opt {
    Content(Content),
    /// The expression between its slashes, as the pattern maker takes it.
    Pcre {
        text: Text,
        flags: PatternFlags,
        relative: bool,
        negated: bool,
    },
    ByteTest {
        fetch: Fetch,
        not: bool,
        cmp: Cmp,
        value: Num,
    },
    ByteJump {
        fetch: Fetch,
        times: u32,
        /// The jump is rounded up to a multiple of 4.
        align: bool,
        /// The jump counts from the payload's start.
        beginning: bool,
        post: i32,
    },
    ByteExtract {
        fetch: Fetch,
        /// The place of the name among the rule's names: 0 or 1.
        name: u8,
        times: u32,
        /// The number is rounded up to a multiple of this: 0 (not rounded), 2 or 4.
        align: u8,
    },
    IsDataAt {
        at: Num,
        relative: bool,
        negated: bool,
    },
    Flow(FlowOpt),
    /// The packet's TCP flags without those of the mask.
    Flags {
        mode: Mode,
        bits: u8,
        mask: u8,
    },
    FragBits {
        mode: Mode,
        bits: u8,
    },
    /// The field against `low`, or within `low` to `high`.
    Compare {
        field: Field,
        cmp: Cmp,
        low: u32,
        high: u32,
    },
    /// Source and destination are the same address.
    SameIp,
    /// Whether the bit of the session is set.
    BitTest {
        bit: u32,
        want: bool,
    },
    BitDo {
        change: BitChange,
        bit: u32,
    },
    /// The bytes that a side has sent.
    StreamSize {
        side: Side,
        cmp: Cmp,
        value: u32,
    },
    /// The data of a side are put together from the session's next packet on, or are not.
    Reassemble {
        on: bool,
        side: Side,
    },
}
