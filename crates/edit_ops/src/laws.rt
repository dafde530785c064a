ghost use Rattle.std.specs.Prelude.{◌≡◌, ◌↔◌, ℕ, true};
ghost use Rattle.vw_cell.specs.declared.boxes.Boxed.{Boxed};
ghost use Rattle.vw_cell.specs.declared.blocks.Block.{Block};
ghost use Rattle.vw_cell.specs.Counts.{cell_at};
ghost use Rattle.vw_cell.specs.Places.{FitsAt, block_side, Meets, HoldsBlock};
ghost use Rattle.edit_ops.specs.Boxes.{parts_met};
ghost use Rattle.edit_ops.specs.Partly.{blocks_partly, is_partly_at};

/// The blocks that a box's walk finds mixed are those of the world that the box meets without
/// holding them.
pub fn mixed_blocks_are_the_worlds()
    ensures { (level : ℕ) (b : Boxed) → FitsAt b.at b.size (block_side level)
        → parts_met level b ≡ blocks_partly level b (cell_at 0 0 0) }
{}

/// A block is counted exactly where the box meets it without holding it.
pub fn tests_tell_what_is_partly_met()
    ensures { (b : Boxed) (block : Block)
        → (is_partly_at b block ≡ true) ↔ (Meets b block × ¬ HoldsBlock b block) }
{}
