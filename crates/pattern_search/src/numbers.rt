//! Numbers at places of a list, which may be past its end.

ghost use Rattle.std.specs.Prelude.{◌≡◌, slice_index, slice_set};

/// The number at a place, 0 past the end.
pub fn read(numbers: &[u32], at: usize) -> u32
    ensures { result ≡ slice_index numbers.now at }
{
    numbers.get(at).copied().unwrap_or(0)
}

/// Writes the number at a place, if there is one.
pub fn write(numbers: &mut [u32], at: usize, number: u32)
    ensures { numbers.new ≡ slice_set numbers.old at number }
{
    if at < numbers.len() {
        numbers[at] = number;
    }
}
