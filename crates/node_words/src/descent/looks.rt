ghost use Rattle.std.specs.Prelude.{◌≡◌, ℕ, ◌+◌, ◌-◌, ◌*◌, ◌/◌, ◌%◌, ◌^◌, ◌<◌, ◌≤◌, Bool, ◌==◌, option_copied, true, false};
ghost use Rattle.std.specs.Int.{bit_at};
ghost use Rattle.vw_cell.specs.Places.{block_side, IsInWorld, half_x, half_y, half_z};
ghost use Rattle.vw_cell.specs.Counts.{cell_at};
ghost use Rattle.node_words.specs.shapes.Shape.{bit_number};
ghost use Rattle.node_words.specs.descent.Roots.{HasBlock, ForBlock, HoldsRoot, ForWorld, cells_of};
ghost use Rattle.node_words.specs.descent.Looks.{LooksAt};
ghost use Rattle.node_words.specs.descent.Landings.{IsAtMost, land_of};
ghost use Rattle.node_words.specs.descent.Parts.{EndsBy, placed, placed_box, whole_of};

use crate::Blocks;
use crate::descent::blocks::leaf_bits;
use crate::descent::landings::{Landing, descend};
use crate::shapes::Name;
use vw_cell::{Boxed, Cell};

/// None where the cell of the block is set, and else a box of clear cells round it: the greatest
/// block that has the cell and no node, or the cell alone in a leaf.
pub fn look<B: Blocks>(store: &mut B, level: u8, block: Option<Name>, c: Cell) -> Option<Boxed>
    requires level { level ≤ 10 }
    requires block { HasBlock (B.seen store.old).held level block }
    requires cell { IsInWorld (block_side level) c }
    ensures looks { LooksAt (B.seen store.old).held level block c result }
    ensures seen { B.seen store.new ≡ B.seen store.old }
    ensures rests { B.rests store.old store.new }
{
    let at = descend(store, level, block, c);
    if at.block.is_none() {
        return Some(land(c, at));
    }
    let bits = leaf_bits(store, at.block);
    if leaf_has(bits, at.inner) {
        None
    } else {
        Some(single(c))
    }
}

// The block of a landing, from the corner of the block in which it lies.
fn land(c: Cell, at: Landing) -> Boxed
    requires level { at.level ≤ 10 }
    requires within { IsAtMost at.inner c }
    ensures { result ≡ land_of c at }
{
    let corner = Cell {
        x: c.x - at.inner.x,
        y: c.y - at.inner.y,
        z: c.z - at.inner.z,
    };
    let whole = whole_block(at.level);
    Boxed {
        at: corner,
        size: whole.size,
    }
}

/// The whole of a block.
#[tactic(auto, using(crate::proofs::OfDescent::LookLaws::whole_side))]
pub fn whole_block(level: u8) -> Boxed
    requires { level ≤ 10 }
    ensures { result ≡ whole_of level }
{
    let side = 4u16 << level;
    let at = Cell { x: 0, y: 0, z: 0 };
    let size = Cell {
        x: side,
        y: side,
        z: side,
    };
    Boxed { at, size }
}

fn single(c: Cell) -> Boxed
    ensures { result ≡ record { at = c; size = cell_at 1 1 1 } }
{
    let size = Cell { x: 1, y: 1, z: 1 };
    Boxed { at: c, size }
}

/// Whether the cell at this place of a leaf's block is set.
#[tactic(auto, using(std::proofs::lemmas::Nat::Bits::shr_and_one))]
pub fn leaf_has(bits: u64, c: Cell) -> bool
    requires { IsInWorld 4 c }
    ensures { result ≡ (bit_at bits (bit_number c.x c.y c.z) == 1) }
{
    let bit = c.x + 4 * c.y + 16 * c.z;
    bits >> bit & 1 == 1
}
