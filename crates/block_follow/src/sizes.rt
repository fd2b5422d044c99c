//! How many places the blocks of nodes have.
ghost use Rattle.std.specs.Prelude.{◌≡◌, ◌≤◌, IsTrue, slice_index};
ghost use Rattle.program_graphs.specs.Weighing.{total};
ghost use Rattle.block_follow.specs.Made as made;

/// The size of a number, 0 past the end.
pub(crate) fn size_at(sizes: &[usize], number: usize) -> usize
    ensures { result ≡ slice_index sizes.now number }
{
    if number < sizes.len() {
        sizes[number]
    } else {
        0
    }
}

/// Whether the sizes of so many numbers are no more than so many together.
pub(crate) fn are_few(sizes: &[usize], count: usize, most: usize) -> bool
    ensures tells { IsTrue result → total (slice_index sizes.now) count ≤ most }
    ensures made { result ≡ made.are_few sizes.now count most }
{
    let mut sum = 0usize;
    for number in 0..count {
        let size = size_at(sizes, number);
        if size > most - sum {
            return false;
        }
        sum += size;
    }
    true
}
