ghost use Rattle.std.specs.Prelude.{◌≡◌, ◌<◌, ◌≤◌, ◌-◌, ◌/◌, ◌+◌, ◌*◌, ◌%◌, ℕ};
ghost use Rattle.vw_cell.specs.Places.{block_side, octant_of, IsInBlock, IsWithin, LiesIn};
ghost use Rattle.node_words.specs.shapes.Shape.{Leaf, has, octant_number};

use vw_cell::{Block, Cell};

/// The octant of the block that has the cell.
#[tactic(auto, using(crate::proofs::OfShapes::ShowLaws::octant_has))]
pub fn octant_with(block: Block, c: Cell) -> u8
    requires level { (1 ≤ block.level) × (block.level ≤ 10) }
    requires cell { IsInBlock block c }
    ensures octant { result < 8 }
    ensures cell { IsInBlock (octant_of block result) c }
{
    let half = half_side(block.level);
    let x = half_at(c.x, block.at.x, half);
    let y = half_at(c.y, block.at.y, half);
    let z = half_at(c.z, block.at.z, half);
    x + 2 * y + 4 * z
}

#[tactic(auto, using(vw_cell::proofs::Halves::shift_exact))]
fn half_side(level: u8) -> u16
    requires { (1 ≤ level) × (level ≤ 10) }
    ensures { result ≡ block_side (level - 1) }
{
    4 << (level - 1)
}

// Which half of the stretch of twice `half` from `low` has the place.
#[tactic(auto, using(crate::proofs::OfShapes::ShowLaws::half_below))]
fn half_at(place: u16, low: u16, half: u16) -> u8
    requires half { 1 ≤ half }
    requires place { IsWithin low (2 * half) place }
    ensures half { result ≡ (place - low) / half }
    ensures below { result < 2 }
{
    let half = (place - low) / half;
    half as u8
}

#[tactic(auto, using(crate::proofs::OfShapes::ShowLaws::leaf_has))]
/// Whether the cell of the leaf's block is set, of the leaf with these bits.
pub fn is_set(bits: u64, block: Block, c: Cell) -> bool
    requires level { block.level ≡ 0 }
    requires cell { IsInBlock block c }
    ensures { result ≡ has 0 (Leaf bits) (c.x - block.at.x) (c.y - block.at.y) (c.z - block.at.z) }
{
    let x = c.x - block.at.x;
    let y = c.y - block.at.y;
    let z = c.z - block.at.z;
    let bit = x + 4 * y + 16 * z;
    bits >> bit & 1 == 1
}
