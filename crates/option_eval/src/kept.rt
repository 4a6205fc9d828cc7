//! Which extracted values later options still read.

ghost use Rattle.std.specs.Prelude.{◌≡◌, List, if◌then◌else◌};
ghost use Rattle.rule_types.specs.declared.option.Opt.{Opt};
ghost use Rattle.option_eval.specs.Kept.{is_named, is_named_if, reads, gives, is_read, kept_values, names_read};

use crate::fetch::Values;
use rule_types::{Num, Opt};

/// Whether a number is the value of a name.
fn is_named(name: u8, number: Num) -> bool
    ensures { result ≡ is_named name number }
{
    match number {
        Num::Value(_) => false,
        Num::Name(named) => named == name,
    }
}

/// Whether a number, if there is one, is the value of the name.
fn is_named_if(name: u8, number: Option<Num>) -> bool
    ensures { result ≡ is_named_if name number }
{
    match number {
        None => false,
        Some(number) => is_named(name, number),
    }
}

/// Whether an option reads the value of a name.
pub(crate) fn reads(name: u8, option: &Opt) -> bool
    ensures { result ≡ reads name option.now }
{
    match option {
        Opt::Content(content) => {
            is_named_if(name, content.from) || is_named_if(name, content.room)
        }
        Opt::ByteTest { fetch, value, .. } => {
            is_named(name, fetch.offset) || is_named(name, *value)
        }
        Opt::ByteJump { fetch, .. } | Opt::ByteExtract { fetch, .. } => {
            is_named(name, fetch.offset)
        }
        Opt::IsDataAt { at, .. } => is_named(name, *at),
        _ => false,
    }
}

/// Whether an option gives a name a value.
fn gives(name: u8, option: &Opt) -> bool
    ensures { result ≡ gives name option.now }
{
    match option {
        Opt::ByteExtract { name: given, .. } => *given == name,
        _ => false,
    }
}

/// Whether some of the options reads the value that a name has before them all.
fn is_read(name: u8, options: &[Opt]) -> bool
    ensures { result ≡ is_read name options.now }
{
    match options {
        [] => false,
        [option, later @ ..] => {
            reads(name, option) || (!gives(name, option) && is_read(name, later))
        }
    }
}

/// Whether the value of each of the two names is still read.
pub(crate) type NamesRead = [bool; 2];

/// Which values the options read.
pub(crate) fn names_read(options: &[Opt]) -> NamesRead
    ensures { result ≡ names_read options.now }
{
    [is_read(0, options), is_read(1, options)]
}

/// What is kept of a value.
fn kept_value(read: bool, value: u64) -> u64
    ensures { result ≡ (if read then value else 0) }
{
    if read { value } else { 0 }
}

/// The values that are read, and 0 in place of the others: so states that differ in nothing that is still read
/// are one.
pub(crate) fn kept_values(read: &NamesRead, values: &Values) -> Values
    ensures { (options : List Opt) → read.now ≡ names_read options → result ≡ kept_values options values.now }
{
    [
        kept_value(read[0], values[0]),
        kept_value(read[1], values[1]),
    ]
}
