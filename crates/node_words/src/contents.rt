//! The canonical shape of given cells. An edit, a version of a log and a question of what a run
//! can need all name a block by its cells; here stands the one shape that a store keeps for them.
//!
//! It is definitions and laws, and touches nothing. The definitions stand in
//! `specs/contents/CellShapes.antt`. The laws that crates above rest on are the contracts of the
//! functions here.

ghost use Rattle.std.specs.Prelude.{◌≡◌, ◌^◌, ◌<◌, ℕ, suc};
ghost use Rattle.node_words.specs.shapes.Shape.{Shape, Clear, Leaf, has, IsCanonical, octant_shape};
ghost use Rattle.node_words.specs.contents.CellShapes.{Cells, SameIn, no_cells, all_cells, octant_cells, leaf_shape, shape_with, full_shape};

/// The shape of given cells sets just these in its block and is canonical, and no other shape does
/// and is.
pub fn cells_have_one_shape()
    ensures shows { (level : ℕ) (cells : Cells)
        → SameIn level (has level (shape_with level cells)) cells }
    ensures canonical { (level : ℕ) (cells : Cells) → IsCanonical level (shape_with level cells) }
    ensures only { (level : ℕ) (s : Shape) (cells : Cells)
        → IsCanonical level s → SameIn level (has level s) cells → s ≡ shape_with level cells }
    ensures same { (level : ℕ) (p q : Cells)
        → SameIn level p q → shape_with level p ≡ shape_with level q }
{}

/// An octant of the shape is the shape of the octant's cells, and cells that agree octant by octant
/// agree.
pub fn shapes_go_by_octants()
    ensures octant { (level : ℕ) (cells : Cells) (k : ℕ)
        → k < 8
        → octant_shape (shape_with (suc level) cells) k ≡ shape_with level
        (octant_cells level cells k) }
    ensures down { (level : ℕ) (p q : Cells) (k : ℕ)
        → k < 8 → SameIn (suc level) p q
        → SameIn level (octant_cells level p k) (octant_cells level q k) }
    ensures up { (level : ℕ) (p q : Cells)
        → ((k : ℕ) → k < 8 → SameIn level (octant_cells level p k) (octant_cells level q k))
        → SameIn (suc level) p q }
{}

/// The shapes of a block without a set cell, of one with all cells set, and of a leaf with these
/// bits.
pub fn some_shapes_are_known()
    ensures none { (level : ℕ) (cells : Cells)
        → SameIn level cells no_cells → shape_with level cells ≡ Clear }
    ensures all { (level : ℕ) (cells : Cells)
        → SameIn level cells all_cells → shape_with level cells ≡ full_shape level }
    ensures leaf { (cells : Cells) (bits : ℕ)
        → bits < 2 ^ 64 → SameIn 0 (has 0 (Leaf bits)) cells
        → shape_with 0 cells ≡ leaf_shape bits }
{}
