//! What a block of voxels contains, as a shape, and the names that its nodes have in a store, as a
//! tree.
//!
//! It is definitions and laws, and touches nothing. Shapes and their cells stand in
//! `specs/shapes/Shape.antt`, trees in `specs/shapes/Tree.antt`, the bucket of a content in
//! `specs/shapes/Buckets.antt`, and lists told by weights in `specs/shapes/Weights.antt`. The laws
//! that crates above rest on are the contracts of the functions here.

ghost use Rattle.std.specs.Prelude.{◌≡◌, ◌≢◌, ◌+◌, ◌<◌, ◌≤◌, ℕ, Bool, List, Some, None, slice_index};
ghost use Rattle.vw_cell.specs.declared.cells.Cell.{Cell};
ghost use Rattle.vw_cell.specs.declared.blocks.Block.{Block};
ghost use Rattle.vw_cell.specs.Places.{octant_of};
ghost use Rattle.node_words.specs.shapes.Shape.{Shape, Clear, SameCells, ShowsCells, HasCell, IsCanonical, IsCanonicalUpTo, octant_shape, IsPart};
ghost use Rattle.node_words.specs.shapes.Tree.{Tree, root_of, child_of, shape_of, IsSubtree, IsTreeAt};
ghost use Rattle.node_words.specs.shapes.Weights.{weight_of, weight_below, put_row};
ghost use Rattle.node_words.specs.shapes.Buckets.{bucket_of_shape};
ghost use Rattle.node_words.specs.declared.shapes.names.Name.{Name};

mod names;
mod places;

pub use names::Name;
pub use places::{is_set, octant_with};
pub use vw_cell::{Ball, Block, Boxed, Cell, Memory, Side};

/// A canonical shape follows from its cells.
pub fn shapes_are_canonical()
    ensures cells { (level : ℕ) (s t : Shape) → IsCanonical level s → IsCanonical level t
        → SameCells level s t → s ≡ t }
    ensures shown { (b : Block) (s t : Shape) (cells : Cell → Bool) → IsCanonical b.level s
        → IsCanonical b.level t → ShowsCells b s cells → ShowsCells b t cells → s ≡ t }
{}

/// A shape shows the cells of a block just where its octants show those of the block's octants.
pub fn octants_show_their_cells()
    ensures down { (b : Block) (s : Shape) (cells : Cell → Bool) (k : ℕ) → 1 ≤ b.level → k < 8
        → ShowsCells b s cells → ShowsCells (octant_of b k) (octant_shape s k) cells }
    ensures up { (b : Block) (s : Shape) (cells : Cell → Bool) → 1 ≤ b.level
        → ((k : ℕ) → k < 8 → ShowsCells (octant_of b k) (octant_shape s k) cells)
        → ShowsCells b s cells }
{}

/// A canonical shape that isn't clear has a set cell.
pub fn shapes_have_cells()
    ensures { (level : ℕ) (s : Shape) → IsCanonical level s → s ≢ Clear → HasCell level s }
{}

/// A part of a shape isn't clear, and one of a canonical shape is canonical, at one level alone.
pub fn parts_are_canonical()
    ensures some { (p s : Shape) → IsPart p s → p ≢ Clear }
    ensures level { (level : ℕ) (p s : Shape) → IsCanonical level s → IsPart p s
        → IsCanonicalUpTo level p }
    ensures once { (j k : ℕ) (s : Shape) → s ≢ Clear → IsCanonical j s → IsCanonical k s → j ≡ k }
{}

/// Each name of a tree has the level of its depth, and a node that stands in a tree shows a part of
/// its shape.
pub fn trees_have_shapes()
    ensures level { (level : ℕ) (t : Tree) (n : Name) → IsTreeAt level t → root_of t ≡ Some n
        → n.level ≡ level }
    ensures octant { (t : Tree) (k : ℕ) → shape_of (child_of t k) ≡ octant_shape (shape_of t) k }
    ensures part { (t u : Tree) → root_of t ≢ None → IsSubtree t u
        → IsPart (shape_of t) (shape_of u) }
{}

/// A tree put in place of another of a row changes the row's weight by its own.
pub fn rows_weigh_their_trees()
    ensures { (f : Tree → ℕ) (row : ℕ → Tree) (k : ℕ) (t : Tree) (n : ℕ) → k < n
        → weight_below f (put_row row k t) n + weight_of f
        (row k) ≡ weight_below f row n + weight_of f t }
{}

/// A shape's bucket is one of its level's.
pub fn shapes_have_buckets()
    ensures { (buckets : List ℕ) (level : ℕ) (s : Shape) → 1 ≤ slice_index buckets level
        → bucket_of_shape buckets level s < slice_index buckets level }
{}

ghost use Rattle.std.specs.Coded.{Coded};

/// Shapes and trees can be told apart by lists of numbers, so a type's model may have them.
pub fn shapes_have_codes()
    ensures shape { Coded Shape }
    ensures tree { Coded Tree }
{}
