use node_words::Full;

/// Why an audit has no answer.
#[derive(Clone, Copy, Debug, PartialEq, Eq)]
pub enum AuditRefused {
    /// The store had no room for what a record needs.
    Full(Full),
    /// Want of memory.
    Memory,
}
