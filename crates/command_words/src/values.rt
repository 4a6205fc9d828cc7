//! The values of a command's options that have a form of their own.
ghost use Rattle.std.specs.Prelude.{◌≡◌, option_map};
ghost use Rattle.clap.specs.Words.{found_of, rows_of};
ghost use Rattle.command_words.specs.Clap.{given_in};
ghost use Rattle.command_words.specs.CommandLine.{is_console, maybe, mode_named, number_or, values_by};
ghost use Rattle.command_words.specs.Told.{lent};
ghost use Rattle.net_lists.specs.Numbers.{number_in};

use crate::asked::ChecksumMode;
use crate::given::given;
use clap::ArgMatches;
use net_lists::number_in;

/// The values that have a form of their own, each in its range.
#[derive(Clone, Copy, Debug)]
pub(crate) struct CheckedValues {
    pub checks: Option<ChecksumMode>,
    pub limit: Option<u32>,
    pub lanes: u32,
    pub flush_point: u32,
    pub generate: Option<u32>,
    pub seed: u32,
}

/// The value of `-k`.
fn mode_named(text: &str) -> Option<ChecksumMode>
    ensures { result ≡ mode_named text.now }
{
    match text {
        "all" => Some(ChecksumMode::All),
        "none" => Some(ChecksumMode::Nothing),
        "noip" => Some(ChecksumMode::NoIp),
        "notcp" => Some(ChecksumMode::NoTcp),
        "noudp" => Some(ChecksumMode::NoUdp),
        "noicmp" => Some(ChecksumMode::NoIcmp),
        _ => None,
    }
}

/// The checksums that are verified, if `-k` is there.
fn maybe_mode(text: Option<&str>) -> Option<Option<ChecksumMode>>
    ensures { result ≡ maybe mode_named (option_map lent text.entry) }
{
    match text {
        None => Some(None),
        Some(text) => Some(Some(mode_named(text)?)),
    }
}

/// A number in a range, if it is there.
fn maybe_number(least: u32, most: u32, text: Option<&str>) -> Option<Option<u32>>
    ensures { result ≡ maybe (number_in least most) (option_map lent text.entry) }
{
    match text {
        None => Some(None),
        Some(text) => Some(Some(number_in(least, most, text.as_bytes())?)),
    }
}

/// A number in a range, or what stands for it where it is missing.
fn number_or(missing: u32, least: u32, most: u32, text: Option<&str>) -> Option<u32>
    ensures { result ≡ number_or missing least most (option_map lent text.entry) }
{
    match text {
        None => Some(missing),
        Some(text) => number_in(least, most, text.as_bytes()),
    }
}

/// Whether `-A` is missing, or `console`.
fn is_console(text: Option<&str>) -> bool
    ensures { result ≡ is_console (option_map lent text.entry) }
{
    match text {
        None => true,
        Some(text) => text == "console",
    }
}

/// The values, or None where one has another form or lies outside its range.
#[tactic(auto, unfolding(crate::specs::CommandLine::values_by))]
pub(crate) fn read_values(matches: &ArgMatches<'_>) -> Option<CheckedValues>
    ensures { result ≡ values_by (given_in (rows_of (found_of matches.now))) }
{
    if !is_console(given(matches, "A")) {
        return None;
    }
    let checks = maybe_mode(given(matches, "k"))?;
    let limit = maybe_number(1, u32::MAX, given(matches, "n"))?;
    let lanes = number_or(1, 1, 64, given(matches, "lanes"))?;
    let flush_point = number_or(1024, 1, 65536, given(matches, "flush-point"))?;
    let generate = maybe_number(1, 100_000, given(matches, "generate"))?;
    let seed = number_or(1, 0, 2_147_483_647, given(matches, "seed"))?;
    Some(CheckedValues {
        checks,
        limit,
        lanes,
        flush_point,
        generate,
        seed,
    })
}
