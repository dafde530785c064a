use history_model::{Act, Mark};
use node_words::{Full, Name};

/// What a session asks of the core. Its number comes first.
#[derive(Clone, Copy, Debug)]
pub enum Event {
    /// A share of the leaf of these bits.
    Leaf(u16, u64),
    /// A share of the node of this level over these children, by octant.
    Node(u16, u8, [Option<Name>; 8]),
    /// One more share of a name that the session holds, or that stands below one.
    Raise(u16, Name),
    /// One share less of the name.
    Lower(u16, Name),
    /// A share of the root of a version, `None` for the newest.
    Pin(u16, Option<u32>),
    /// The line and the act of a new record, the number of records that it was made for, and the
    /// root of the version that it makes.
    Append(u16, u32, Act, u32, Option<Name>),
    /// The line, and the version to forget.
    Forget(u16, u32, u32),
}

/// What the core answers. The number of records comes with each answer about versions.
#[derive(Clone, Copy, Debug)]
pub enum Reply {
    /// A share of this name is the session's.
    Held(Name),
    /// The key's bucket has no free slot.
    Full(Full),
    /// The share went, and the entry stays.
    Left,
    /// The last share went, and those of the children are the session's.
    Freed([Option<Name>; 8]),
    /// The version, the number of records, and the root, of which a share is the session's.
    Pinned(u32, u32, Option<Name>),
    /// The version is over the number of records.
    NoVersion(u32),
    /// The version was forgotten.
    Forgotten(u32, Mark),
    /// The act became this record.
    Appended(u32),
    /// No record can be appended any more.
    LogFull,
    /// There are more records than the act was made for.
    Stale(u32),
    /// The version is forgotten from now on, and the share of its root is the session's.
    Forgot(u32, Option<Name>),
    /// The version is the newest one.
    IsHead(u32),
    /// The event isn't lawful.
    Unlawful,
}
