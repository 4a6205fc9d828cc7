//! Parts that are in order become one list in order.
ghost use Rattle.std.specs.Prelude.{◌≡◌, ℕ, nat_eq, All, IfOk, List};
ghost use Rattle.std.specs.List.{IsDistinct};
ghost use Rattle.std.specs.List.Sorted.{IsPermutation, IsStrictlyIncreasing};
ghost use Rattle.ordered_merge.specs.Merging.{Ascends, entry_of, joined, numbers};
ghost use Rattle.ordered_merge.specs.Greatest.{Falls};

use crate::Numbered;
use crate::greatest::pop_greatest;
use edge_io::NoMemory;
use std::alloc::Global;

/// How many entries the parts have, or the greatest number that there is.
fn entry_count<T>(parts: &[Vec<Numbered<T>>]) -> usize {
    let mut count = 0usize;
    for part in parts {
        count = count.saturating_add(part.len());
    }
    count
}

/// All entries of the parts, the greatest number first.
fn greatest_first<T: Drop>(
    alloc: Global,
    mut parts: Vec<Vec<Numbered<T>>>,
) -> Result<Vec<Numbered<T>>, NoMemory>
    requires { All (λ part. Ascends part.items) parts.items }
    ensures whole { IfOk result (λ taken. IsPermutation (joined parts.items) taken.items) }
    ensures falling { IfOk result (λ taken. Falls taken.items) }
{
    let mut taken = Vec::with_capacity(alloc, entry_count(&parts))?;
    while let Some(entry) = pop_greatest(&mut parts) {
        taken.push(entry)?;
    }
    Ok(taken)
}

/// One list of all entries, each as often as it was there, in the order of their numbers.
///
/// Each part ascends, and no number is there twice in the parts. One pass over the entries: each turn
/// looks at the end of every part, of which there are few (at most 64 where lanes are merged), and
/// moves one entry. No value is copied, and memory is asked for once.
pub fn merge<T: Drop>(
    alloc: Global,
    parts: Vec<Vec<Numbered<T>>>,
) -> Result<Vec<Numbered<T>>, NoMemory>
    requires ascending { All (λ part. Ascends part.items) parts.items }
    requires apart { IsDistinct nat_eq (numbers (joined parts.items)) }

    // The entries are those of the parts, and they ascend.
    ensures whole { IfOk result (λ merged. IsPermutation (joined parts.items) merged.items) }
    ensures ascending { IfOk result (λ merged. Ascends merged.items) }

    // So the entry of a number is the one that its part had, and there is none where no part had one;
    ensures entries { IfOk result
        (λ merged. (number : ℕ) → entry_of merged.items number ≡ entry_of (joined parts.items) number) }
    // and where the numbers are those of an ascending list, the result has that list of numbers.
    ensures given { IfOk result
        (λ merged. (given : List ℕ) → IsStrictlyIncreasing given
        → IsPermutation given (numbers (joined parts.items)) → numbers merged.items ≡ given) }
{
    let mut merged = greatest_first(alloc, parts)?;
    merged.reverse();
    Ok(merged)
}

/// A law for callers: numbers that are those of an ascending list, in another order, are all different, as
/// `merge` asks of the numbers of its parts.
pub fn permuted_numbers_are_apart()
    ensures { (given permuted : List ℕ) → IsStrictlyIncreasing given
        → IsPermutation given permuted → IsDistinct nat_eq permuted }
{}
