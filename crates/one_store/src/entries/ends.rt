ghost use Rattle.std.specs.Prelude.{◌≡◌, ℕ, ◌+◌, ◌^◌, ◌<◌, ◌≤◌, slice_index};
ghost use Rattle.core_laws.specs.Sums.{sum_below};

/// How many buckets the first levels have, for each number of levels.
pub(crate) fn ends_of(buckets: &[u16; 11]) -> [usize; 12]
    ensures ends { (levels : ℕ) → levels ≤ 11
        → slice_index result levels ≡ sum_below levels (λ level. slice_index buckets.now level) }
    ensures small { (levels : ℕ) → levels ≤ 11 → slice_index result levels < 2 ^ 20 }
{
    let mut ends = [0usize; 12];
    for level in 0..11 {
        ends[level + 1] = ends[level] + usize::from(buckets[level]);
    }
    ends
}
