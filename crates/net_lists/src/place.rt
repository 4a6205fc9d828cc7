//! What may come next while a list is read.
ghost use Rattle.std.specs.Prelude.{◌≡◌, ◌+◌, ◌<◌, ◌^◌, IfSome};
ghost use Rattle.net_lists.specs.Tokenized.{symbol_of};
ghost use Rattle.net_lists.specs.Machine.{IsNext, step_of, start, is_end, is_negated, no_part, at, after_word, after_open, after_close, after_comma, after_not};

use crate::part::{Part, Spelled};
use crate::token::Token;

/// What may come next inside the brackets of a list.
#[derive(Clone, Copy, Debug, PartialEq, Eq)]
pub enum Wanted {
    /// A part, a bracket or a `!`.
    Item,
    /// A part or a bracket, after a `!`.
    Operand,
    /// A comma or the end of a bracket.
    Separator,
}

/// How far the symbols of a list were read.
#[derive(Clone, Copy, Debug, PartialEq, Eq)]
pub struct Place {
    pub wanted: Wanted,
    /// How many brackets are open, the outermost aside.
    pub depth: usize,
    /// How many of all open brackets, from the innermost on, lie in a negated one or are it.
    pub negated: usize,
}

/// A step after a token: the next place, and the part that the token is.
#[derive(Clone, Copy, Debug, PartialEq, Eq)]
pub struct ListStep<B> {
    pub place: Place,
    pub part: Option<Part<B>>,
}

impl Place {
    /// The place before the first symbol of a list's brackets, which may come after a `!`.
    pub fn start(negated: bool) -> Place
        ensures { result ≡ start negated }
    {
        Place {
            wanted: Wanted::Item,
            depth: 0,
            negated: usize::from(negated),
        }
    }

    /// Whether the text may end here.
    pub fn is_end(self) -> bool
        ensures { result ≡ is_end self }
    {
        self.wanted == Wanted::Separator && self.depth == 0
    }

    /// The step after this token, if it may come here.
    pub fn step<B: Spelled>(self, token: Token<'_>) -> Option<ListStep<B>>
        requires depth { self.depth + 1 < 2 ^ 64 }
        requires negated { self.negated + 1 < 2 ^ 64 }
        ensures step { result ≡ step_of B.bounds_of self (symbol_of token.entry) }
        ensures next { IfSome result (λ step. IsNext self step.place) }
    {
        match token {
            Token::Open => self.after_open(),
            Token::Close => self.after_close(),
            Token::Comma => self.after_comma(),
            Token::Not => self.after_not(),
            Token::Word(word) => self.after_word(word),
        }
    }

    fn is_negated(self) -> bool
        ensures { result ≡ is_negated self }
    {
        self.wanted == Wanted::Operand || self.negated > 0
    }

    #[tactic(auto, unfolding(crate::specs::Machine::after_word))]
    fn after_word<B: Spelled>(self, word: &[u8]) -> Option<ListStep<B>>
        ensures step { result ≡ after_word B.bounds_of self word.now }
        ensures next { IfSome result (λ step. IsNext self step.place) }
    {
        if self.wanted == Wanted::Separator {
            return None;
        }
        let bounds = B::read(word)?;
        Some(ListStep {
            place: Place {
                wanted: Wanted::Separator,
                depth: self.depth,
                negated: self.negated,
            },
            part: Some(Part {
                negated: self.is_negated(),
                bounds,
            }),
        })
    }

    #[tactic(auto, unfolding(crate::specs::Machine::after_open))]
    fn after_open<B>(self) -> Option<ListStep<B>>
        requires depth { self.depth + 1 < 2 ^ 64 }
        requires negated { self.negated + 1 < 2 ^ 64 }
        ensures step { result ≡ after_open self }
        ensures next { IfSome result (λ step. IsNext self step.place) }
    {
        if self.wanted == Wanted::Separator {
            return None;
        }
        let negated = if self.is_negated() {
            self.negated + 1
        } else {
            0
        };
        Some(ListStep::to(Wanted::Item, self.depth + 1, negated))
    }

    #[tactic(auto, unfolding(crate::specs::Machine::after_close))]
    fn after_close<B>(self) -> Option<ListStep<B>>
        ensures step { result ≡ after_close self }
        ensures next { IfSome result (λ step. IsNext self step.place) }
    {
        if self.wanted != Wanted::Separator || self.depth == 0 {
            return None;
        }
        Some(ListStep::to(
            Wanted::Separator,
            self.depth - 1,
            self.negated.saturating_sub(1),
        ))
    }

    #[tactic(auto, unfolding(crate::specs::Machine::after_comma))]
    fn after_comma<B>(self) -> Option<ListStep<B>>
        ensures step { result ≡ after_comma self }
        ensures next { IfSome result (λ step. IsNext self step.place) }
    {
        if self.wanted != Wanted::Separator {
            return None;
        }
        Some(ListStep::to(Wanted::Item, self.depth, self.negated))
    }

    #[tactic(auto, unfolding(crate::specs::Machine::after_not))]
    fn after_not<B>(self) -> Option<ListStep<B>>
        ensures step { result ≡ after_not self }
        ensures next { IfSome result (λ step. IsNext self step.place) }
    {
        if self.wanted != Wanted::Item || self.negated > 0 {
            return None;
        }
        Some(ListStep::to(Wanted::Operand, self.depth, self.negated))
    }
}

impl<B> ListStep<B> {
    /// A step after a mark, which is no part.
    fn to(wanted: Wanted, depth: usize, negated: usize) -> ListStep<B>
        ensures { result ≡ no_part (at wanted depth negated) }
    {
        ListStep {
            place: Place {
                wanted,
                depth,
                negated,
            },
            part: None,
        }
    }
}
