//! The header of a rule.
ghost use Rattle.std.specs.Prelude.{◌≡◌, List, ℕ, length};
ghost use Rattle.net_lists.specs.Addresses.{address_bounds};
ghost use Rattle.net_lists.specs.Cutting.{first_word, after_word};
ghost use Rattle.net_lists.specs.Parts.{port_bounds};
ghost use Rattle.net_lists.specs.Stops.{Gives};
ghost use Rattle.rule_parser.specs.Headers.{action_of, proto_of, direction_of, expanded_word, IsGiven, IsReadAs, IsAddressWord, IsPortWord, IsHeader};
ghost use Rattle.rule_parser.specs.HeaderTexts.{AreTexts, AreWords, BeginsFilled, words_text, AreCutInto};

use crate::fault::Fault;
use crate::word::is;
use crate::{Action, Proto};
use edge_io::Text;
use net_lists::{AddrList, ExpandFault, ListFault, PortList, Stop, Vars, first_word};
use std::alloc::Global;

/// Which packets a rule speaks of.
#[derive(Drop)]
pub(crate) struct Header {
    pub action: Action,
    pub proto: Proto,
    pub src: AddrList,
    pub sports: PortList,
    pub dst: AddrList,
    pub dports: PortList,
    /// Source and destination may be exchanged.
    pub both: bool,
}

#[tactic(auto, unfolding(crate::specs::Headers::action_of))]
fn action_of(word: &[u8]) -> Result<Action, Fault>
    ensures { result ≡ action_of word.now }
{
    if is(word, b"alert") {
        Ok(Action::Alert)
    } else if is(word, b"pass") {
        Ok(Action::Pass)
    } else if is(word, b"log") {
        Err(Fault::OutsideProfile)
    } else if is(word, b"activate") {
        Err(Fault::OutsideProfile)
    } else if is(word, b"dynamic") {
        Err(Fault::OutsideProfile)
    } else if is(word, b"drop") {
        Err(Fault::OutsideProfile)
    } else if is(word, b"reject") {
        Err(Fault::OutsideProfile)
    } else if is(word, b"sdrop") {
        Err(Fault::OutsideProfile)
    } else {
        Err(Fault::Action)
    }
}

#[tactic(auto, unfolding(crate::specs::Headers::proto_of))]
fn proto_of(word: &[u8]) -> Result<Proto, Fault>
    ensures { result ≡ proto_of word.now }
{
    if is(word, b"tcp") {
        Ok(Proto::Tcp)
    } else if is(word, b"udp") {
        Ok(Proto::Udp)
    } else if is(word, b"icmp") {
        Ok(Proto::Icmp)
    } else if is(word, b"ip") {
        Ok(Proto::Ip)
    } else {
        Err(Fault::Protocol)
    }
}

/// Whether source and destination may be exchanged.
#[tactic(auto, unfolding(crate::specs::Headers::direction_of))]
fn direction_of(word: &[u8]) -> Result<bool, Fault>
    ensures { result ≡ direction_of word.now }
{
    if is(word, b"->") {
        Ok(false)
    } else if is(word, b"<>") {
        Ok(true)
    } else {
        Err(Fault::Direction)
    }
}

/// A line from each word of its header on.
#[derive(Clone, Copy)]
pub(crate) struct HeaderTexts<'a> {
    pub action: &'a [u8],
    pub proto: &'a [u8],
    pub src: &'a [u8],
    pub sports: &'a [u8],
    pub direction: &'a [u8],
    pub dst: &'a [u8],
    pub dports: &'a [u8],
    /// What comes after the header.
    pub options: &'a [u8],
}

/// The first word of a text.
fn word_of(text: &[u8]) -> &[u8]
    ensures { result.now ≡ first_word text.now }
{
    first_word(text).0
}

/// What comes after the first word.
fn after_word(text: &[u8]) -> &[u8]
    ensures { result.now ≡ after_word text.now }
{
    first_word(text).1
}

impl<'a> HeaderTexts<'a> {
    /// Cuts a line into the words of its header and what comes after them. A line that is written of seven
    /// words is cut into these.
    pub(crate) fn cut(line: &'a [u8]) -> HeaderTexts<'a>
        ensures texts { AreTexts result line.now }
        ensures written { (words : List (List ℕ)) (rest : List ℕ)
            → length words ≡ 7 → AreWords words → BeginsFilled rest
            → line.now ≡ words_text words rest → AreCutInto result words rest }
    {
        HeaderTexts::from_words(line)
    }

    /// Cuts a line into the words of its header and what comes after them, by the first clause of `cut` alone.
    #[tactic(auto, unfolding(crate::specs::Headers::from_word))]
    fn from_words(line: &'a [u8]) -> HeaderTexts<'a>
        ensures { AreTexts result line.now }
    {
        let proto = after_word(line);
        let src = after_word(proto);
        let sports = after_word(src);
        let direction = after_word(sports);
        let dst = after_word(direction);
        let dports = after_word(dst);
        let options = after_word(dports);
        HeaderTexts {
            action: line,
            proto,
            src,
            sports,
            direction,
            dst,
            dports,
            options,
        }
    }
}

/// The first word of a text with its variables expanded.
#[tactic(auto, unfolding(crate::specs::Headers::expanded_word))]
fn expanded_word(alloc: Global, vars: &Vars, text: &[u8]) -> Result<Text, Stop<Fault>>
    ensures { Gives result (expanded_word vars.now text.now) }
{
    let mut out = Vec::new(alloc);
    match vars.expand(word_of(text), &mut out) {
        Ok(()) => Ok(Text::from_vec(out)),
        Err(ExpandFault::Unknown { from, to }) => Err(Stop::Wrong(Fault::Unknown {
            left: text.len().saturating_sub(from),
            len: to.saturating_sub(from),
        })),
        Err(ExpandFault::TooLong) => Err(Stop::Wrong(Fault::Limit)),
        Err(ExpandFault::NoMemory) => Err(Stop::NoMemory),
    }
}

/// The addresses that a text lists.
fn addresses(alloc: Global, text: &[u8]) -> Result<AddrList, Stop<Fault>>
    ensures { IsGiven result (IsReadAs address_bounds Fault.Address text.now) }
{
    match AddrList::read(alloc, text) {
        Ok(list) => Ok(list),
        Err(ListFault::BadAddress) => Err(Stop::Wrong(Fault::Address)),
        Err(ListFault::BadPort) => Err(Stop::Wrong(Fault::Address)),
        Err(ListFault::ListTooLong) => Err(Stop::Wrong(Fault::Limit)),
        Err(ListFault::NoMemory) => Err(Stop::NoMemory),
    }
}

/// The ports that a text lists.
fn ports(alloc: Global, text: &[u8]) -> Result<PortList, Stop<Fault>>
    ensures { IsGiven result (IsReadAs port_bounds Fault.Port text.now) }
{
    match PortList::read(alloc, text) {
        Ok(list) => Ok(list),
        Err(ListFault::BadAddress) => Err(Stop::Wrong(Fault::Port)),
        Err(ListFault::BadPort) => Err(Stop::Wrong(Fault::Port)),
        Err(ListFault::ListTooLong) => Err(Stop::Wrong(Fault::Limit)),
        Err(ListFault::NoMemory) => Err(Stop::NoMemory),
    }
}

/// The addresses of the first word of a text.
#[tactic(auto, unfolding(crate::specs::Headers::IsAddressWord))]
fn address_word(alloc: Global, vars: &Vars, text: &[u8]) -> Result<AddrList, Stop<Fault>>
    ensures { IsGiven result (IsAddressWord vars.now text.now) }
{
    let word = expanded_word(alloc, vars, text)?;
    addresses(alloc, word.bytes())
}

/// The ports of the first word of a text.
#[tactic(auto, unfolding(crate::specs::Headers::IsPortWord))]
fn port_word(alloc: Global, vars: &Vars, text: &[u8]) -> Result<PortList, Stop<Fault>>
    ensures { IsGiven result (IsPortWord vars.now text.now) }
{
    let word = expanded_word(alloc, vars, text)?;
    ports(alloc, word.bytes())
}

impl Header {
    /// The header of a line that is cut, its words looked at from left to right.
    #[tactic(auto, unfolding(crate::specs::Headers::IsHeader))]
    pub(crate) fn read(
        alloc: Global,
        vars: &Vars,
        texts: &HeaderTexts,
    ) -> Result<Header, Stop<Fault>>
        ensures { (line : List ℕ) → AreTexts texts.now line → IsGiven result (IsHeader vars.now line) }
    {
        let action = action_of(word_of(texts.action))?;
        let proto = proto_of(word_of(texts.proto))?;
        let src = address_word(alloc, vars, texts.src)?;
        let sports = port_word(alloc, vars, texts.sports)?;
        let both = direction_of(word_of(texts.direction))?;
        let dst = address_word(alloc, vars, texts.dst)?;
        let dports = port_word(alloc, vars, texts.dports)?;
        Ok(Header {
            action,
            proto,
            src,
            sports,
            dst,
            dports,
            both,
        })
    }
}
