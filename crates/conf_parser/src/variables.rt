//! The lines that define variables, and the name that an include gives.
ghost use Rattle.std.specs.Prelude.{◌≡◌, ◌+◌, ◌≤◌, ◌==◌, not, Ok, length};
ghost use Rattle.std.specs.List.{suffix_len};
ghost use Rattle.std.specs.Str.{is_utf8};
ghost use Rattle.net_lists.specs.Stops.{Gives};
ghost use Rattle.conf_parser.specs.Values.{with_new};
ghost use Rattle.conf_parser.specs.Variables.{checked, value_of, named, definition, directory, is_rooted, beside, within_files, is_file_name, include};

use crate::draft::Spot;
use crate::line::ConfKind;
use crate::value::{address_list, expanded, port_list};
use edge_io::Text;
use net_lists::{Stop, Vars, first_word, is_name};
use std::alloc::Global;

/// How deep includes may nest.
pub const MOST_DEPTH: usize = 16;

/// How many files a configuration may have; a file counts each time it is read.
const MOST_FILES: usize = 4096;

/// What a variable's value must be.
#[derive(Clone, Copy)]
pub enum ValueForm {
    Any,
    Addresses,
    Ports,
}

/// A value of this form, as it is.
fn checked(alloc: Global, form: ValueForm, value: Text) -> Result<Text, Stop<ConfKind>>
    ensures { Gives result (checked form value) }
{
    match form {
        ValueForm::Any => Ok(value),
        ValueForm::Addresses => {
            let _list = address_list(alloc, value.bytes())?;
            Ok(value)
        }
        ValueForm::Ports => {
            let _list = port_list(alloc, value.bytes())?;
            Ok(value)
        }
    }
}

/// The expanded value of this form.
#[tactic(auto, unfolding(crate::specs::Variables::value_of))]
fn value_of(
    alloc: Global,
    vars: &Vars,
    form: ValueForm,
    text: &[u8],
) -> Result<Text, Stop<ConfKind>>
    ensures { Gives result (value_of vars.now form text.now) }
{
    let value = expanded(alloc, vars, text)?;
    checked(alloc, form, value)
}

/// Defines a variable of this name, by its text.
#[tactic(auto, unfolding(crate::specs::Variables::named))]
fn define(
    alloc: Global,
    vars: &mut Vars,
    form: ValueForm,
    name: &[u8],
    text: &[u8],
) -> Result<(), Stop<ConfKind>>
    ensures { Gives (with_new result vars.new) (named vars.old form name.now text.now) }
{
    if !is_name(name) || text.is_empty() {
        return Err(Stop::Wrong(ConfKind::BadValue));
    }
    let value = value_of(alloc, vars, form, text)?;
    vars.define(name, value.bytes(), false)?;
    Ok(())
}

/// `var`, `ipvar` and `portvar`: defines the variable of the line.
#[tactic(auto, unfolding(crate::specs::Variables::definition))]
pub fn definition(
    alloc: Global,
    vars: &mut Vars,
    form: ValueForm,
    rest: &[u8],
) -> Result<(), Stop<ConfKind>>
    ensures { Gives (with_new result vars.new) (definition vars.old form rest.now) }
{
    let (name, text) = first_word(rest);
    define(alloc, vars, form, name, text)
}

/// How many bytes the directory part of a file's name has.
fn directory_len(file: &[u8]) -> usize
    ensures len { result + suffix_len (λ byte. not (byte == 47)) file.now ≡ length file.now }
    ensures within { result ≤ length file.now }
{
    let mut len = file.len();
    while len > 0 {
        if file[len - 1] == b'/' {
            return len;
        }
        len -= 1;
    }
    0
}

/// The directory part of a file's name.
#[tactic(auto, unfolding(crate::specs::Variables::directory))]
fn directory(file: &[u8]) -> &[u8]
    ensures { result.now ≡ directory file.now }
{
    &file[..directory_len(file)]
}

/// Whether a name begins with `/`.
#[tactic(auto, unfolding(crate::specs::Variables::is_rooted))]
fn is_rooted(name: &[u8]) -> bool
    ensures { result ≡ is_rooted name.now }
{
    matches!(name, [b'/', ..])
}

/// The file that a name means in a file.
#[tactic(auto, unfolding(crate::specs::Variables::beside))]
fn beside(alloc: Global, file: &[u8], name: Text) -> Result<Text, Stop<ConfKind>>
    ensures { Gives result (Ok (beside file.now name)) }
{
    if is_rooted(name.bytes()) {
        return Ok(name);
    }
    let mut path = Vec::from_slice(alloc, directory(file))?;
    path.extend_from_slice(name.bytes())?;
    Ok(Text::from_vec(path))
}

/// A name of a file, as it is.
fn file_name(name: Text) -> Result<Text, ConfKind>
    ensures { result ≡ is_file_name name }
{
    if is_utf8(name.bytes()) {
        Ok(name)
    } else {
        Err(ConfKind::BadValue)
    }
}

/// The file that is read there.
#[tactic(auto, unfolding(crate::specs::Variables::within_files))]
fn within_files(alloc: Global, spot: &Spot<'_>, name: Text) -> Result<Text, Stop<ConfKind>>
    ensures { Gives result (within_files spot.now name) }
{
    if spot.depth >= MOST_DEPTH {
        return Err(Stop::Wrong(ConfKind::TooDeep));
    }
    if spot.files >= MOST_FILES {
        return Err(Stop::Wrong(ConfKind::Limit));
    }
    beside(alloc, spot.file, name)
}

/// Whether the bytes are UTF-8.
fn is_utf8(bytes: &[u8]) -> bool
    ensures { result ≡ is_utf8 bytes.now }
{
    match str::from_utf8(bytes) {
        Ok(_) => true,
        Err(_) => false,
    }
}

/// `include`: the name of the file that is read there.
#[tactic(auto, unfolding(crate::specs::Variables::include))]
pub fn include(
    alloc: Global,
    vars: &Vars,
    spot: &Spot<'_>,
    rest: &[u8],
) -> Result<Text, Stop<ConfKind>>
    ensures { Gives result (include vars.now spot.now rest.now) }
{
    if rest.is_empty() {
        return Err(Stop::Wrong(ConfKind::BadValue));
    }
    let name = expanded(alloc, vars, rest)?;
    let name = file_name(name)?;
    within_files(alloc, spot, name)
}
