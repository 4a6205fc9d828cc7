//! Laws about what a rule can extract, for callers: they bound its work by its own options and the payload's length.

ghost use Rattle.std.specs.Prelude.{◌≡◌, ℕ, ◌*◌, ◌^◌, ◌<◌, ◌≤◌, All, List, length};
ghost use Rattle.std.specs.List.{count_by};
ghost use Rattle.rule_types.specs.declared.option.Opt.{Opt};
ghost use Rattle.option_eval.specs.Places.{is_extract, Means};
ghost use Rattle.option_eval.specs.Trying.{HasFewValues};
ghost use Rattle.option_eval.specs.Values.{list_count, most_visits};
ghost use Rattle.option_eval.specs.Walks.{visits_of};

/// A rule extracts few values from a payload of n bytes, whatever its patterns find: all lists of its two names'
/// values that any way through its options keeps are in `lists`, all points after its extractions in `listed`, and
/// both are short, by the rule's options and n alone.
///
/// - An extraction (`byte_extract`) of w bytes takes its number at one of n + 1 - w places at most; at one place, if
///   its offset is told and counts from the payload's start (`place_count`). Of one byte it takes at most 256 numbers,
///   else one at each of its places at most (`number_count`).
/// - With a and b the numbers that all extractions into the one and the other name can take, there are at most
///   (1 + a)(1 + b) lists: each name has 0 before. Where never both are still read there are 1 + a + b (`list_count`).
/// - After an extraction there is at most one point for each of its places and each value of the other name, if
///   that is still read (`point_count`).
pub fn extracted_values_are_few()
    ensures { (means : Means) (payload : List ℕ) (options : List Opt) → All (λ byte. byte < 256) payload
        → HasFewValues means payload options }
{}

/// The most visits of a rule in a payload of n bytes, `most_visits`, are no more than k (n + 1) times the e-th power
/// of `list_count`: k is the number of its payload options (`visits_of` is k (n + 1)), and e that of its extractions.
pub fn most_visits_are_a_power()
    ensures { (options : List Opt) (size : ℕ)
        → most_visits options size ≤ list_count options size ^ count_by is_extract options * visits_of options size }
{}
