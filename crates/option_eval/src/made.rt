//! What is made of an option once, when its rule is pushed.

use memchr::memmem::Finder;

/// What serves an option at each payload.
#[derive(Drop)]
pub enum MadeOption<P> {
    /// For an option that needs nothing.
    Nothing,
    /// A search for a content's bytes.
    Needle(Finder<'static>),
    /// The pattern of its expression.
    Pattern(P),
}
