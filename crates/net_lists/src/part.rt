//! The parts of lists.
ghost use Rattle.std.specs.Prelude.{◌≡◌, List, ℕ, Option};

/// The values from `low` to `high`, both included.
#[derive(Clone, Copy, Debug, PartialEq, Eq)]
pub struct ValueBounds<V> {
    pub low: V,
    pub high: V,
}

/// The addresses of a part, which are of one version, as numbers in network order.
#[derive(Clone, Copy, Debug, PartialEq, Eq)]
pub enum AddrBounds {
    V4(ValueBounds<u32>),
    V6(ValueBounds<u128>),
}

/// A part of a list: what it has, and whether it comes after a `!`, its own or that of a bracket around
/// it.
#[derive(Clone, Copy, Debug, PartialEq, Eq)]
pub struct Part<B> {
    pub negated: bool,
    pub bounds: B,
}

/// A part of a list of addresses.
pub type AddrPart = Part<AddrBounds>;

/// A part of a list of ports.
pub type PortPart = Part<ValueBounds<u16>>;

/// What a word of a list spells, if it is a part of its kind.
pub trait Spelled: Copy {
    ghost bounds_of: { List ℕ → Option Self };

    /// The bounds that the text spells, or None where it is no part of this kind.
    fn read(text: &[u8]) -> Option<Self>
        ensures { result ≡ bounds_of text.now };
}
