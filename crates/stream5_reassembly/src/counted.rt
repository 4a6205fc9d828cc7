//! Runs whose starts count from a base.
ghost use Rattle.std.specs.Prelude.{◌≡◌, ◌≤◌, ◌++◌, All, drop, map, take, vec_len};
ghost use Rattle.stream5_reassembly.specs.Counted.{counted_from, IsFrom};

use overlap_core::Run;

/// Makes the starts of the runs after the first `known` ones count from the base.
pub fn count_from(base: u64, known: usize, runs: &mut Vec<Run>)
    requires known { known ≤ vec_len runs.old }
    requires from { All (IsFrom base) (drop known runs.old.items) }
    ensures { runs.new.items ≡ take known runs.old.items ++ map (counted_from base) (drop known runs.old.items) }
{
    let all = runs.as_mut_slice();
    count_all_from(base, &mut all[known..]);
}

/// Makes the starts of all these runs count from the base.
fn count_all_from(base: u64, runs: &mut [Run])
    requires { All (IsFrom base) runs.old }
    ensures { runs.new ≡ map (counted_from base) runs.old }
{
    for run in runs.iter_mut() {
        run.start -= base;
    }
}
