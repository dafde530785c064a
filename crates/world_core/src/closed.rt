//! What the nodes of a world leave that is closed.

use history_model::History;
use node_words::Name;

/// The root of a version that is kept; `None` where the version has no set cell.
#[derive(Clone, Copy, Debug, PartialEq, Eq)]
pub struct Root {
    pub version: u32,
    pub name: Option<Name>,
}

/// What a closed world leaves: its history, the root of each version that is kept, by rising
/// version, and how many nodes of each level are live.
#[derive(Drop)]
pub struct Closed {
    pub history: History,
    pub roots: Vec<Root>,
    pub live: [u32; 11],
}
