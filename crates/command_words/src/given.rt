//! What the words gave, of all that their matches have: `clap` has a row of each flag, given or not.
ghost use Rattle.std.specs.Prelude.{◌≡◌, is_some, option_map};
ghost use Rattle.clap.specs.Matches.{ids_left};
ghost use Rattle.clap.specs.Words.{found_of, rows_of};
ghost use Rattle.command_words.specs.Clap.{given_in, if_given, others_among, others_in};
ghost use Rattle.command_words.specs.CommandLine.{may_be_beside};
ghost use Rattle.command_words.specs.Told.{lent};

use clap::ArgMatches;
use clap::parser::ValueSource;

/// A text, if the words gave it.
fn if_given<'a>(source: Option<ValueSource>, text: Option<&'a str>) -> Option<&'a str>
    ensures { option_map lent result ≡ if_given source (option_map lent text.entry) }
{
    match source {
        Some(ValueSource::CommandLine) => text,
        Some(ValueSource::DefaultValue) | None => None,
    }
}

/// The text that the words gave an option or a flag; a flag's is `true`.
pub(crate) fn given<'a>(matches: &ArgMatches<'a>, id: &str) -> Option<&'a str>
    ensures { option_map lent result ≡ given_in (rows_of (found_of matches.now)) id.now }
{
    if_given(matches.value_source(id), matches.get_str(id))
}

/// Whether the words gave an option or a flag.
pub(crate) fn is_given(matches: &ArgMatches<'_>, id: &str) -> bool
    ensures { result ≡ is_some (given_in (rows_of (found_of matches.now)) id.now) }
{
    given(matches, id).is_some()
}

/// Whether this letter or name may be given beside `--read-unified2`.
fn may_be_beside(id: &str) -> bool
    ensures { result ≡ may_be_beside id.now }
{
    id == "read-unified2" || id == "help" || id == "V"
}

/// Whether the words gave anything that may not be given beside `--read-unified2`.
pub(crate) fn has_others(matches: &ArgMatches<'_>) -> bool
    ensures { result ≡ others_in (rows_of (found_of matches.now)) }
{
    for id in matches.ids() {
        if !may_be_beside(id) && is_given(matches, id) {
            return true;
        }
    }
    false
}
