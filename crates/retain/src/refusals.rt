use history_model::Mark;

/// Why a version isn't pinned, at this length of the history.
#[derive(Clone, Copy, Debug, PartialEq, Eq)]
pub enum PinRefused {
    /// There is no such version yet.
    NoVersion { at: u32 },
    /// The version is forgotten.
    Forgotten { at: u32, mark: Mark },
}

/// Why a version isn't forgotten, at this length of the history.
#[derive(Clone, Copy, Debug, PartialEq, Eq)]
pub enum ForgetRefused {
    /// There is no such version yet.
    NoVersion { at: u32 },
    /// The version is the newest one.
    IsHead { at: u32 },
    /// The version is forgotten already.
    Forgotten { at: u32, mark: Mark },
}
