// What pins, commits and forgets answer, and why no record was appended.
use node_words::Share;

/// A version that is pinned: the length of the log at that moment, and a share of the version's
/// root, `None` where no cell is set. It must be spent.
pub struct Pinned {
    pub version: u32,
    pub moment: u32,
    pub root: Option<Share>,
}

/// Record `n` was appended. Where a version fell out that had no mark, the share of its root is
/// handed over, `None` where no cell of it is set.
pub struct Committed {
    pub n: u32,
    pub fallen: Option<Share>,
}

/// A version was forgotten at this length of the log. The share of its root is handed over, `None`
/// where no cell is set.
pub struct Forgot {
    pub at: u32,
    pub root: Option<Share>,
}

/// Why an edit isn't committed. The root comes back.
pub enum CommitRefused {
    /// The log has all the records that it has room for.
    LogFull { root: Option<Share> },
    /// The log has grown to this length since its base was pinned.
    Stale { now: u32, root: Option<Share> },
}

/// Why a record isn't appended under the log's turn. The root comes back.
pub enum SureRefused {
    /// The log has all the records that it has room for.
    LogFull { root: Option<Share> },
}

/// Why an edit isn't committed at once. The root comes back.
pub enum TryRefused {
    /// The log has all the records that it has room for.
    LogFull { root: Option<Share> },
    /// The log has grown to this length since its base was pinned.
    Stale { now: u32, root: Option<Share> },
    /// Another session has the log's turn.
    Busy { root: Option<Share> },
}
