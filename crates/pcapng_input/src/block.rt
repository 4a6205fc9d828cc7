//! The head of a block: its kind and its length.
ghost use Rattle.std.specs.Prelude.{◌≡◌, IsTrue};
ghost use Rattle.pcapng_input.specs.Blocks.{kind_of, least_total, fixed_front, front_length, is_short, is_sized, inner_length};

/// The kinds of blocks that are told apart.
#[derive(Clone, Copy, Debug, PartialEq, Eq)]
pub enum BlockKind {
    /// A section header (0a0d0d0a).
    Section,
    /// An interface description (1).
    Interface,
    /// A simple packet (3).
    Simple,
    /// An enhanced packet (6).
    Enhanced,
    /// Any other block.
    Other,
}

/// What the first eight bytes of a block tell.
#[derive(Clone, Copy, Debug, PartialEq, Eq)]
pub struct Block {
    pub kind: BlockKind,
    /// How long the whole block is.
    pub total: u32,
}

/// The most bytes of a section header and of an interface description.
const MOST_BYTES: u32 = 1_048_576;

impl BlockKind {
    /// The kind of a block of this type that is no section header.
    pub fn of(number: u32) -> BlockKind
        ensures { result ≡ kind_of number }
    {
        match number {
            1 => BlockKind::Interface,
            3 => BlockKind::Simple,
            6 => BlockKind::Enhanced,
            _ => BlockKind::Other,
        }
    }

    /// How long a block of this kind is at least.
    fn least(self) -> u32
        ensures { result ≡ least_total self }
    {
        match self {
            BlockKind::Section => 28,
            BlockKind::Interface => 20,
            BlockKind::Simple => 16,
            BlockKind::Enhanced => 32,
            BlockKind::Other => 12,
        }
    }

    /// The bytes that are before what differs in length.
    fn fixed_front(self) -> u32
        ensures { result ≡ fixed_front self }
    {
        match self {
            BlockKind::Section => 24,
            BlockKind::Interface => 16,
            BlockKind::Simple => 12,
            BlockKind::Enhanced => 28,
            BlockKind::Other => 8,
        }
    }

    /// How many bytes of the fixed front are after what a block is known by: its type and total length, and of a
    /// section header the byte-order magic.
    pub fn front_length(self) -> usize
        ensures { result ≡ front_length self }
    {
        match self {
            BlockKind::Section => 12,
            BlockKind::Interface => 8,
            BlockKind::Simple => 4,
            BlockKind::Enhanced => 20,
            BlockKind::Other => 0,
        }
    }

    /// A block of this kind is never longer than `MOST_BYTES`.
    fn is_short(self) -> bool
        ensures { result ≡ is_short self }
    {
        matches!(self, BlockKind::Section | BlockKind::Interface)
    }
}

impl Block {
    /// The total length is one that a block of its kind may have.
    #[tactic(auto, unfolding(crate::specs::Blocks::is_sized))]
    pub fn is_sized(self) -> bool
        ensures { result ≡ is_sized self }
    {
        self.total % 4 == 0
            && self.kind.least() <= self.total
            && (self.total <= MOST_BYTES || !self.kind.is_short())
    }

    /// How many bytes are between the fixed front and the last four.
    #[tactic(auto, using(crate::proofs::Blocks::Sizes::sizes))]
    pub fn inner(self) -> u32
        requires { IsTrue (is_sized self) }
        ensures { result ≡ inner_length self }
    {
        self.total - self.kind.fixed_front() - 4
    }
}
