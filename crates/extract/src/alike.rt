ghost use Rattle.std.specs.Prelude.{◌≡◌, ◌≤◌, IsTrue, List};
ghost use Rattle.node_words.specs.shapes.Tree.{Tree};
ghost use Rattle.extract.specs.Sides.{AreFound, hides_alike};

use measure::{ExposedSides, WholeBlock};
use node_words::{Answers, Name, Query, same_names};

/// A block of some level, beside which the same stands in each direction. Its answer is 0, or
/// no cell of it is bare.
#[derive(Clone, Copy)]
pub(crate) struct Alike {
    pub(crate) block: Option<Name>,
    pub(crate) level: u8,
}

impl Query for Alike {
    ghost tells = { hides_alike };

    fn is_same(&self, other: &Alike) -> bool {
        self.level == other.level && same_names(self.block, other.block)
    }

    fn place(&self) -> usize {
        match self.block {
            Some(name) => usize::from(name.slot ^ self.level),
            None => 0,
        }
    }
}

/// What a walk found of blocks in which no cell is bare.
#[derive(Drop)]
pub(crate) struct Found {
    pub(crate) wholes: Answers<WholeBlock<ExposedSides>>,
    pub(crate) alike: Answers<Alike>,
}

impl Found {
    /// Nothing yet.
    pub(crate) fn new() -> Found
        ensures { (held : List Tree) → AreFound held result }
    {
        Found {
            wholes: Answers::new(),
            alike: Answers::new(),
        }
    }
}

/// The number that is remembered.
pub(crate) fn number_of(hidden: bool) -> u64
    ensures { 1 ≤ result → IsTrue hidden }
{
    if hidden { 1 } else { 0 }
}
