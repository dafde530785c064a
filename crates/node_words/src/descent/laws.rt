ghost use Rattle.std.specs.Prelude.{◌≡◌, ℕ, ◌-◌, ◌≤◌};
ghost use Rattle.vw_cell.specs.declared.boxes.Boxed.{Boxed};
ghost use Rattle.vw_cell.specs.Places.{block_side};
ghost use Rattle.vw_cell.specs.Sums.{sum_below};
ghost use Rattle.vw_cell.specs.Counts.{number_in};
ghost use Rattle.node_words.specs.shapes.Shape.{Shape};
ghost use Rattle.node_words.specs.descent.Parts.{part_in, EndsBy, HasCellsOf};
ghost use Rattle.node_words.specs.descent.Roots.{octant_count, cells_of};

/// The part of a box in an octant has just the box's cells there.
#[tactic(auto, using(crate::proofs::OfDescent::PartLaws::part_has_cells))]
pub fn parts_have_the_cells_of_their_box()
    ensures { (half octant : ℕ) (b : Boxed) → HasCellsOf half octant b (part_in half b octant) }
{}

/// The set cells of a box of a block are those of its parts in the octants.
#[tactic(auto, using(crate::proofs::OfDescent::Octants::count_by_octants))]
pub fn octants_count_their_cells()
    ensures { (level : ℕ) (s : Shape) (b : Boxed) → 1 ≤ level → EndsBy (block_side level) b
        → number_in b (cells_of level s) ≡ sum_below 8 (octant_count level s b) }
{}
