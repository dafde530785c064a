ghost use Rattle.std.specs.Prelude.{◌≡◌, ℕ, Bool, List, slice_index, ◌+◌, ◌<◌};
ghost use Rattle.node_words.specs.Cell.{Cell};
ghost use Rattle.node_words.specs.Block.{Block};
ghost use Rattle.node_words.specs.shapes.Shape.{Leaf, ShowsCells, has, branch_of};
ghost use Rattle.node_words.specs.kernels.Leaves.{LeafShows, LiesAcross};

/// Bits that show the cells of a leaf's block are those of the leaf whose shape shows them, and the
/// other way.
#[tactic(auto, using(crate::proofs::OfKernels::LeafLaws::leaf_shows, crate::proofs::OfKernels::LeafLaws::leaf_shown))]
pub fn leaves_show_their_cells()
    ensures shows { (bits : ℕ) (block : Block) (test : Cell → Bool) → block.level ≡ 0
        → LeafShows bits block test → ShowsCells block (Leaf bits) test }
    ensures shown { (bits : ℕ) (block : Block) (test : Cell → Bool) → block.level ≡ 0
        → ShowsCells block (Leaf bits) test → LeafShows bits block test }
{}

/// The leaf that lies across eight others has the cells that the block of the eight has from that
/// offset on.
#[tactic(auto, using(crate::proofs::OfKernels::LeafLaws::across_has))]
pub fn leaves_lie_across_eight()
    ensures { (leaves : List ℕ) (dx dy dz bits x y z : ℕ) → LiesAcross leaves dx dy dz bits → dx < 4
        → dy < 4 → dz < 4 → x < 4 → y < 4 → z < 4
        → has 0 (Leaf bits) x y z ≡ has 1 (branch_of (λ k. Leaf (slice_index leaves k))) (x + dx)
        (y + dy) (z + dz) }
{}
