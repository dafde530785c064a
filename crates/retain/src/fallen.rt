ghost use Rattle.std.specs.Prelude.{◌≡◌};
ghost use Rattle.retain.specs.Retained.{falls_out};

/// The version that falls out of the last `keep` as record n comes, n - keep. `None` where `keep`
/// is over n, and where it is 0: then all versions are held.
pub fn falls_out(n: u32, keep: u32) -> Option<u32>
    ensures { result ≡ falls_out n keep }
{
    if keep == 0 || keep > n {
        return None;
    }
    Some(n - keep)
}
