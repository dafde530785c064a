ghost use Rattle.std.specs.Prelude.{◌≡◌};
ghost use Rattle.node_words.specs.declared.shapes.names.Name.{Name};

use crate::shapes::Name;
use std::marker::Model;

/// One reference to a live node of a store. It can't be copied, and it must be spent: given back,
/// or moved into a node above. Contracts see its name.
pub struct Share {
    name: Name,
}

impl Model for Share {
    ghost Value = { Name };

    ghost view = { λ s. s.name };
}

impl Share {
    /// The name of the node.
    pub fn name(&self) -> Name
        ensures { result ≡ self.now }
    {
        self.name
    }

    /// For implementers of a store: a reference that the store has counted. A call can't tell one
    /// that nobody counted from a counted one of the same name, so nothing but a store is to make
    /// one.
    pub fn of_store(name: Name) -> Share
        ensures { result ≡ name }
    {
        Share { name }
    }

    /// For implementers of a store: the reference is used up.
    pub fn spend(self) -> Name
        ensures { result ≡ self }
    {
        let Share { name } = self;
        name
    }
}

/// A full bucket was met: each of its slots has a live node, and none the wanted one.
#[derive(Clone, Copy, Debug, PartialEq, Eq)]
pub struct Full {
    pub level: u8,
    pub bucket: u16,
}

/// A node that a full bucket refused, with its children handed back.
pub struct NodeRefused {
    pub full: Full,
    pub children: [Option<Share>; 8],
}
