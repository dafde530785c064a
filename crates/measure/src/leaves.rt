ghost use Rattle.std.specs.Prelude.{◌≡◌, Bool};
ghost use Rattle.vw_cell.specs.declared.cells.Cell.{Cell};
ghost use Rattle.vw_cell.specs.Counts.{number_in};
ghost use Rattle.node_words.specs.descent.Parts.{EndsBy};
ghost use Rattle.measure.specs.Leaves.{BitsPassTest};

use node_words::box_bits;
use vw_cell::{Block, Boxed, Cell};

/// How many cells of a part of a leaf's block count, where the bits tell which of the block's do.
#[tactic(auto, using(crate::proofs::LeafCounts::leaf_number))]
pub(crate) fn count_leaf(bits: u64, part: Boxed) -> u64
    requires { EndsBy 4 part }
    ensures { (test : Cell → Bool) → BitsPassTest bits test → result ≡ number_in part test }
{
    let at = Cell { x: 0, y: 0, z: 0 };
    let within = box_bits(part, Block { level: 0, at });
    u64::from((bits & within).count_ones())
}
