ghost use Rattle.std.specs.Prelude.{◌≡◌, ◌+◌, ◌-◌, ◌<◌, ◌≤◌, ◌↔◌, ℕ, List, Option, IsTrue};
ghost use Rattle.node_words.specs.Sums.{sum_below};
ghost use Rattle.node_words.specs.shapes.Shape.{Leaf, has};
ghost use Rattle.node_words.specs.shapes.Tree.{Tree};
ghost use Rattle.node_words.specs.declared.shapes.names.Name.{Name};
ghost use Rattle.node_words.specs.descent.Roots.{IsOctantOf};
ghost use Rattle.node_words.specs.contents.CellShapes.{Cells, SameIn, octant_cells};
ghost use Rattle.edit_walk.specs.cells.Tasks.{Making, Lasts, MakesSome, MakesCells, ForCells, IsWhole};
ghost use Rattle.edit_walk.specs.cells.Paints.{IsOld};

use node_words::{Blocks, Name};

/// What a block becomes, where that is known of it as a whole.
#[derive(Clone, Copy, Debug, PartialEq, Eq)]
pub enum Whole {
    /// No cell is set.
    Nothing,
    /// Every cell is set.
    All,
    /// It has the cells of a node that the store has.
    Old(Name),
    /// Its octants tell, or its bits.
    Mixed,
}

impl Whole {
    /// Whether nothing is known.
    pub fn is_mixed(&self) -> bool
        ensures { IsTrue result ↔ (self.now ≡ Whole.Mixed) }
    {
        matches!(self, Whole::Mixed)
    }
}

/// What an edit makes of one block, asked block by block and octant by octant.
///
/// It names the old nodes that it reads, so what it makes hangs on trees that stay held. The blocks
/// below are told by their places in the block, or by their places in the world, as the task likes.
pub trait Task: Copy {
    /// The cells that the task makes of a block of some level, while some trees are held.
    ghost makes: { Self → Making };

    /// It makes the same while more is held.
    ghost lasts: { Lasts makes };

    /// A bound on the number of mixed blocks of a block of this level, itself among them, and of
    /// its octant.
    ghost mixed: { ℕ → Self → ℕ };

    ghost mixed_in: { ℕ → Self → ℕ → ℕ };

    /// The name of the block as the task tells it.
    ghost was: { Self → Option Name };

    /// A held block of this level, or none. Where it is the block as it was, an edit that changes
    /// nothing answers it; another one costs shares, and no cell hangs on it.
    fn old(&self) -> Option<Name>
        ensures name { result ≡ was self.now }
        ensures block { (base : List Tree) (level : ℕ) (cells : Cells)
            → makes self.now base level cells → (t : Tree) × IsOld base level t result };

    /// The task of an octant, of which this is the name in the block that `old` answers.
    fn octant<B: Blocks>(&self, store: &mut B, level: u8, octant: u8, old: Option<Name>) -> Self
        requires level { 1 ≤ level }
        requires octant { octant < 8 }
        requires task { MakesCells (makes self.now) (B.seen store.old).held level }
        requires old { IsOctantOf (B.seen store.old).held level (was self.now) octant old }
        ensures task { ForCells (makes self.now) (B.seen store.old).held level
            (λ base cells. makes result base (level - 1) (octant_cells (level - 1) cells octant)) }
        ensures mixed { mixed (level - 1) result ≤ mixed_in level self.now octant }
        ensures seen { B.seen store.new ≡ B.seen store.old }
        ensures rests { B.rests store.old store.new };

    /// What is known of the block as a whole. It reads no node.
    fn whole(&self, level: u8) -> Whole
        requires task { MakesSome (makes self.now) level }
        ensures whole { (base : List Tree) (cells : Cells) → makes self.now base level cells
            → IsWhole base level cells result }
        ensures mixed { result ≡ Whole.Mixed → 1 ≤ level
            → 1 + sum_below 8 (mixed_in level self.now) ≤ mixed level self.now };

    /// The bits of a leaf.
    fn bits<B: Blocks>(&self, store: &mut B) -> u64
        requires task { MakesCells (makes self.now) (B.seen store.old).held 0 }
        ensures bits { ForCells (makes self.now) (B.seen store.old).held 0
            (λ base cells. SameIn 0 (has 0 (Leaf result)) cells) }
        ensures seen { B.seen store.new ≡ B.seen store.old }
        ensures rests { B.rests store.old store.new };
}
