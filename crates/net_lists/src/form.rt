//! The forms in which a text names a variable.
ghost use Rattle.std.specs.Prelude.{◌≡◌, ◌≤◌, ◌<◌, length, option_map, IfSome};
ghost use Rattle.net_lists.specs.Forms.{form_at, bare, parenthesized, named_form, closed, name_len, IsSpan};
ghost use Rattle.net_lists.specs.Found.{form_of, otherwise_span};
ghost use Rattle.net_lists.specs.Variables.{continues_name};
ghost use Rattle.std.specs.List.{prefix_len};

use crate::name::{begins_name, continues_name};
use crate::split::place_of;
use edge_io::Span;

/// What stands for an undefined variable.
#[derive(Clone, Copy, Debug, PartialEq, Eq)]
pub enum Otherwise {
    /// These bytes of the text, copied.
    Default(Span),
    /// Nothing: these bytes of the text are shown.
    Refused(Span),
}

/// A form that names a variable, by places in the text.
#[derive(Clone, Copy, Debug, PartialEq, Eq)]
pub struct Form {
    pub name: Span,
    /// The place after the form.
    pub end: usize,
    pub otherwise: Otherwise,
}

/// The form whose `$` comes right before this place.
#[tactic(auto, unfolding(crate::specs::Forms::form_at))]
pub fn form_at(text: &[u8], place: usize) -> Option<Form>
    requires { place ≤ length text.now }
    ensures form { option_map form_of result ≡ form_at text.now place }
    ensures after { IfSome result (λ form. place < form.end) }
    ensures within { IfSome result (λ form. form.end ≤ length text.now) }
    ensures name { IfSome result (λ form. IsSpan text.now form.name) }
    ensures otherwise { IfSome result (λ form. IsSpan text.now (otherwise_span form.otherwise)) }
{
    if text[place..].starts_with(b"(") {
        return parenthesized(text, place + 1);
    }
    bare(text, place)
}

/// The form that is a name alone, from this place on.
#[tactic(auto, unfolding(crate::specs::Forms::bare))]
fn bare(text: &[u8], place: usize) -> Option<Form>
    requires { place ≤ length text.now }
    ensures form { option_map form_of result ≡ bare text.now place }
    ensures after { IfSome result (λ form. place < form.end) }
    ensures within { IfSome result (λ form. form.end ≤ length text.now) }
    ensures name { IfSome result (λ form. IsSpan text.now form.name) }
    ensures otherwise { IfSome result (λ form. IsSpan text.now (otherwise_span form.otherwise)) }
{
    let len = name_len(&text[place..]);
    if len == 0 {
        return None;
    }
    let name = Span {
        start: place,
        end: place + len,
    };
    Some(Form {
        name,
        end: place + len,
        otherwise: Otherwise::Refused(name),
    })
}

/// The form in parentheses whose name begins at this place.
#[tactic(auto, unfolding(crate::specs::Forms::parenthesized))]
fn parenthesized(text: &[u8], place: usize) -> Option<Form>
    requires { place ≤ length text.now }
    ensures form { option_map form_of result ≡ parenthesized text.now place }
    ensures after { IfSome result (λ form. place < form.end) }
    ensures within { IfSome result (λ form. form.end ≤ length text.now) }
    ensures name { IfSome result (λ form. IsSpan text.now form.name) }
    ensures otherwise { IfSome result (λ form. IsSpan text.now (otherwise_span form.otherwise)) }
{
    let len = name_len(&text[place..]);
    if len == 0 {
        return None;
    }
    named_form(
        text,
        Span {
            start: place,
            end: place + len,
        },
    )
}

/// The form in parentheses with this name, by what comes after the name.
#[tactic(auto, unfolding(crate::specs::Forms::named_form))]
fn named_form(text: &[u8], name: Span) -> Option<Form>
    requires { IsSpan text.now name }
    ensures form { option_map form_of result ≡ named_form text.now name }
    ensures after { IfSome result (λ form. name.end < form.end) }
    ensures within { IfSome result (λ form. form.end ≤ length text.now) }
    ensures name { IfSome result (λ form. form.name ≡ name) }
    ensures otherwise { IfSome result (λ form. IsSpan text.now (otherwise_span form.otherwise)) }
{
    let after = &text[name.end..];
    if after.starts_with(b")") {
        return Some(Form {
            name,
            end: name.end + 1,
            otherwise: Otherwise::Refused(name),
        });
    }
    if after.starts_with(b":-") {
        let default = closed(text, name.end + 2)?;
        return Some(Form {
            name,
            end: default.end + 1,
            otherwise: Otherwise::Default(default),
        });
    }
    if after.starts_with(b":?") {
        let shown = closed(text, name.end + 2)?;
        return Some(Form {
            name,
            end: shown.end + 1,
            otherwise: Otherwise::Refused(shown),
        });
    }
    None
}

/// The span from this place up to the first `)`.
#[tactic(auto, unfolding(crate::specs::Forms::closed))]
fn closed(text: &[u8], place: usize) -> Option<Span>
    requires { place ≤ length text.now }
    ensures span { result ≡ closed text.now place }
    ensures within { IfSome result (λ span. (span.start ≡ place) × (place ≤ span.end) × (span.end < length text.now)) }
{
    let count = place_of(&text[place..], b')')?;
    Some(Span {
        start: place,
        end: place + count,
    })
}

/// How many bytes of a name are in front.
#[tactic(auto, unfolding(crate::specs::Forms::name_len))]
fn name_len(text: &[u8]) -> usize
    ensures len { result ≡ name_len text.now }
    ensures within { result ≤ length text.now }
{
    match text {
        [first, rest @ ..] if begins_name(*first) => 1 + continued_len(rest),
        _ => 0,
    }
}

/// How many bytes in front continue a name.
#[tactic(auto, using(crate::proofs::Fronts::fronts))]
fn continued_len(text: &[u8]) -> usize
    ensures len { result ≡ prefix_len continues_name text.now }
    ensures within { result ≤ length text.now }
{
    text.iter()
        .position(|byte| !continues_name(*byte))
        .unwrap_or(text.len())
}
