//! Numbers and extracted names in options.
ghost use Rattle.std.specs.Prelude.{◌≡◌, ◌<◌, length, IfSome};
ghost use Rattle.rule_parser.specs.Names.{place_among, named, signed_or_named, number_or_named};

use crate::Num;
use crate::fault::Fault;
use edge_io::Text;
use net_lists::{is_name, number_in, signed_in};

/// The place of a text among these.
#[tactic(auto, unfolding(crate::specs::Names::place_among))]
pub(crate) fn place_among(text: &[u8], known: &[Text]) -> Option<usize>
    ensures place { result ≡ place_among text.now known.now }
    ensures within { IfSome result (λ place. place < length known.now) }
{
    known.iter().position(|one| one.bytes() == text)
}

/// An extracted name; `left` bytes of the line are left where it begins.
#[tactic(auto, unfolding(crate::specs::Names::named))]
pub(crate) fn named(known: &[Text], left: usize, text: &[u8]) -> Result<Num, Fault>
    requires { length known.now < 256 }
    ensures { result ≡ named known.now left text.now }
{
    if !is_name(text) {
        return Err(Fault::OptionValue);
    }
    match place_among(text, known) {
        Some(place) => Ok(Num::Name(place as u8)),
        None => Err(Fault::Unknown {
            left,
            len: text.len(),
        }),
    }
}

/// A number from `least` to `most`, or a name.
#[tactic(auto, unfolding(crate::specs::Names::signed_or_named))]
pub(crate) fn signed_or_named(
    least: i32,
    most: i32,
    known: &[Text],
    left: usize,
    text: &[u8],
) -> Result<Num, Fault>
    requires { length known.now < 256 }
    ensures { result ≡ signed_or_named least most known.now left text.now }
{
    match signed_in(least, most, text) {
        Some(number) => Ok(Num::Value(i64::from(number))),
        None => named(known, left, text),
    }
}

/// A number from `least` to `most`, not a negative one, or a name.
#[tactic(auto, unfolding(crate::specs::Names::number_or_named))]
pub(crate) fn number_or_named(
    least: u32,
    most: u32,
    known: &[Text],
    left: usize,
    text: &[u8],
) -> Result<Num, Fault>
    requires { length known.now < 256 }
    ensures { result ≡ number_or_named least most known.now left text.now }
{
    match number_in(least, most, text) {
        Some(number) => Ok(Num::Value(i64::from(number))),
        None => named(known, left, text),
    }
}
