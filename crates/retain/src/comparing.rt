use history_model::Mark;

/// Whether two versions have the same cells, at this length of the history.
#[derive(Clone, Copy, Debug, PartialEq, Eq)]
pub struct SameAt {
    pub at: u32,
    pub equal: bool,
}

/// Why two versions aren't compared, at this length of the history.
#[derive(Clone, Copy, Debug, PartialEq, Eq)]
pub enum SameRefused {
    /// There is no such version yet.
    NoVersion { at: u32, version: u32 },
    /// The version of the mark is forgotten.
    Forgotten { at: u32, mark: Mark },
}
