//! Which options count from the place before them, which leave it, and which need one at all.

ghost use Rattle.std.specs.Prelude.{◌≡◌};
ghost use Rattle.option_eval.specs.Kinds.{is_relative, is_test, needs_place};
ghost use Rattle.option_eval.specs.Places.{is_payload_option, is_extract};

use crate::content::is_only;
use rule_types::Opt;

/// Whether an option asks something of the payload.
pub(crate) fn is_payload_option(option: &Opt) -> bool
    ensures { result ≡ is_payload_option option.now }
{
    matches!(
        option,
        Opt::Content(_)
            | Opt::Pcre { .. }
            | Opt::ByteTest { .. }
            | Opt::ByteJump { .. }
            | Opt::ByteExtract { .. }
            | Opt::IsDataAt { .. }
    )
}

/// Whether an option extracts a value.
pub(crate) fn is_extract(option: &Opt) -> bool
    ensures { result ≡ is_extract option.now }
{
    matches!(option, Opt::ByteExtract { .. })
}

/// Whether an option counts from the place before it.
pub(crate) fn is_relative(option: &Opt) -> bool
    ensures { result ≡ is_relative option.now }
{
    match option {
        Opt::Content(content) => !is_only(content) && content.relative,
        Opt::Pcre { relative, .. } | Opt::IsDataAt { relative, .. } => *relative,
        Opt::ByteTest { fetch, .. }
        | Opt::ByteJump { fetch, .. }
        | Opt::ByteExtract { fetch, .. } => fetch.relative,
        _ => false,
    }
}

/// Whether an option leads nowhere but to the place before it.
pub(crate) fn is_test(option: &Opt) -> bool
    ensures { result ≡ is_test option.now }
{
    match option {
        Opt::Content(content) => content.negated || is_only(content),
        Opt::Pcre { negated, .. } => *negated,
        Opt::ByteJump { .. } | Opt::ByteExtract { .. } => false,
        _ => true,
    }
}

/// Whether some of the options counts from the place before them all.
pub(crate) fn needs_place(options: &[Opt]) -> bool
    ensures { result ≡ needs_place options.now }
{
    match options {
        [] => false,
        [option, rest @ ..] => is_relative(option) || (is_test(option) && needs_place(rest)),
    }
}
