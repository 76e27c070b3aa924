//! The greatest number that two rising lists have in common.
ghost use Rattle.std.specs.Prelude.{ℕ, ◌≡◌, ◌<◌, ◌≤◌, length, get_or, nat_le};
ghost use Rattle.std.specs.List.{Contains};
ghost use Rattle.history_tree.specs.Laws.{Rises};
ghost use Rattle.history_tree.specs.MergeBase.{is_among};
ghost use Rattle.change_index.specs.Last.{IsLast};

/// A place up to `end` before which no number of a rising list is above the bound. It is sought back from `end` by strides
/// that double. So their number grows as the logarithm of how many numbers before `end` are above the bound.
fn passed_from(numbers: &[u32], end: usize, bound: u32) -> usize
    requires rises { Rises numbers.now }
    requires inside { end ≤ length numbers.now }
    ensures within { result ≤ end }
    ensures below { (k : ℕ) → k < result → get_or numbers.now k 0 ≤ bound }
{
    let mut start = end;
    let mut stride: usize = 1;
    'back: while start > 0 && numbers[start - 1] > bound {
        start = start.saturating_sub(stride);
        stride = stride.saturating_mul(2);
    }
    start
}

/// How many of the numbers before `end` in a rising list are at most the bound. It takes a number of steps that grows as the
/// logarithm of how many of them are above it.
fn count_to(numbers: &[u32], end: usize, bound: u32) -> usize
    requires rises { Rises numbers.now }
    requires inside { end ≤ length numbers.now }
    ensures within { result ≤ end }
    ensures below { (k : ℕ) → k < result → get_or numbers.now k 0 ≤ bound }
    ensures above { (k : ℕ) → result ≤ k → k < end → bound < get_or numbers.now k 0 }
{
    let start = passed_from(numbers, end, bound);
    start + numbers[start..end].partition_point(|number| *number <= bound)
}

/// The greatest number that two rising lists have in common. From their ends, the list whose last number is greater drops
/// all that are greater than the other's. So its work grows with the number of runs in which the lists alternate, and with the
/// logarithm of each run's length.
pub(crate) fn last_common(path: &[u32], versions: &[u32]) -> Option<u32>
    requires path { Rises path.now }
    requires versions { Rises versions.now }
    ensures { IsLast (is_among versions.now) path.now result }
{
    let mut on_path = path.len();
    let mut of_versions = versions.len();
    'ends: while on_path > 0 && of_versions > 0 {
        let last = path[on_path - 1];
        let written = versions[of_versions - 1];
        if last == written {
            return Some(last);
        }
        if last < written {
            of_versions = count_to(versions, of_versions, last);
        } else {
            on_path = count_to(path, on_path, written);
        }
    }
    None
}
