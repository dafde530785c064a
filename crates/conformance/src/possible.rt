//! Which contents a run's edits can have needed, cell by cell: when a bucket may be full.
//!
//! It is definitions and a law, and touches nothing: no store occurs here. Which contents an act
//! needs, and how many different ones a run can have needed, is said in
//! `specs/possible/Needed.antt`.

ghost use Rattle.std.specs.Prelude.{◌≡◌, ℕ, List};
ghost use Rattle.node_words.specs.shapes.Shape.{Shape, has, IsCanonical};
ghost use Rattle.node_words.specs.shapes.Buckets.{bucket_of_shape};
ghost use Rattle.node_words.specs.contents.CellShapes.{Cells, SameIn};
ghost use Rattle.conformance.specs.possible.Needed.{bucket_of_cells};

/// The bucket of a content is that of the canonical shape with these cells.
pub fn contents_have_buckets()
    ensures { (buckets : List ℕ) (level : ℕ) (s : Shape) (cells : Cells)
        → IsCanonical level s → SameIn level (has level s) cells
        → bucket_of_cells buckets level cells ≡ bucket_of_shape buckets level s }
{}
