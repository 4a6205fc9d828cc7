//! The greatest entry of parts that ascend, found by looking at their ends.

ghost use Rattle.std.specs.Prelude.{◌≡◌, ◌<◌, ◌≤◌, ◌↔◌, [], ◌∷◌, length, IsTrue, IfSome, IfNone, MatchOption, All};
ghost use Rattle.std.specs.List.Sorted.{IsPermutation};
ghost use Rattle.ordered_merge.specs.Merging.{joined, Ascends};
ghost use Rattle.ordered_merge.specs.Greatest.{AtMost, EndsIn, GreatestUpTo};

use crate::Numbered;

/// The end of a part: which part it is, and the number of its last entry.
#[derive(Clone, Copy)]
struct PartEnd {
    at: usize,
    number: u64,
}

/// The number of the last entry. None where there is no entry.
fn last_number<T>(part: &Vec<Numbered<T>>) -> Option<u64>
    ensures { MatchOption result (part.now.items ≡ []) (λ number. EndsIn number part.now.items) }
{
    Some(part.last()?.number)
}

/// Whether a number is greater than the greatest so far, or the first.
fn exceeds(number: u64, greatest: Option<PartEnd>) -> bool
    ensures { IsTrue result ↔ IfSome greatest (λ end. end.number < number) }
{
    greatest.is_none_or(|end| end.number < number)
}

/// The end with the greatest number. None where every part is empty.
fn greatest_end<T>(parts: &[Vec<Numbered<T>>]) -> Option<PartEnd>
    requires { All (λ part. Ascends part.items) parts.now }
    ensures { GreatestUpTo parts.now (length parts.now) result }
{
    let mut greatest = None;
    for (at, part) in parts.iter().enumerate() {
        if let Some(number) = last_number(part) {
            if exceeds(number, greatest) {
                greatest = Some(PartEnd { at, number });
            }
        }
    }
    greatest
}

/// Takes the entry with the greatest number out of the parts. None where no entry is left.
pub fn pop_greatest<T>(parts: &mut Vec<Vec<Numbered<T>>>) -> Option<Numbered<T>>
    requires { All (λ part. Ascends part.items) parts.old.items }
    ensures ascending { All (λ part. Ascends part.items) parts.new.items }
    ensures empty { IfNone result (joined parts.old.items ≡ []) }
    ensures taken { IfSome result (λ entry. IsPermutation (joined parts.old.items) (entry ∷ joined parts.new.items)) }
    ensures greatest { IfSome result (λ entry. AtMost entry.number (joined parts.old.items)) }
{
    let end = greatest_end(parts)?;
    parts[end.at].pop()
}
