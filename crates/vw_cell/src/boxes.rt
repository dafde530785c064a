ghost use Rattle.std.specs.Prelude.{◌≡◌, ◌↔◌, ℕ, ◌^◌, ◌≤◌, ◌<◌, ◌+◌, min, IsSome, IfSome, IsTrue};
ghost use Rattle.vw_cell.specs.Places.{FitsAt, Fits, IsInBox, is_in_box, IsWithin, is_within, Meets, HoldsBlock, Touches, Covers};

use crate::blocks::Block;
use crate::cells::Cell;
use crate::sides::Side;

/// A box of cells: its least corner and its size on each axis.
///
/// One made by [`Boxed::new`] lies in that world and has at least one cell. The fields are plain:
/// a box that is written out may lie anywhere, and the calls below still mean what they say.
#[derive(Clone, Copy, Debug, PartialEq, Eq)]
pub struct Boxed {
    pub at: Cell,
    pub size: Cell,
}

impl Boxed {
    /// The box of this corner and size. `None` where a size is 0 or the box leaves the world.
    pub fn new(at: Cell, size: Cell, side: Side) -> Option<Boxed>
        ensures exactly { IsSome result ↔ FitsAt at size (2 ^ side) }
        ensures value { IfSome result (λ b. (b.at ≡ at) × (b.size ≡ size)) }
    {
        let side = side.cells();
        if fits(at.x, size.x, side) && fits(at.y, size.y, side) && fits(at.z, size.z, side) {
            Some(Boxed { at, size })
        } else {
            None
        }
    }

    /// Whether the cell is in the box.
    pub fn has(&self, c: Cell) -> bool
        ensures exactly { IsTrue result ↔ IsInBox self.now c }
        ensures value { result ≡ is_in_box self.now c }
    {
        has_place(self.at.x, self.size.x, c.x)
            && has_place(self.at.y, self.size.y, c.y)
            && has_place(self.at.z, self.size.z, c.z)
    }

    /// Whether some cell of the block is in the box.
    #[tactic(auto, using(crate::proofs::Overlaps::meets_when, crate::proofs::Overlaps::meets_only))]
    pub fn meets(&self, b: Block) -> bool
        ensures { IsTrue result ↔ Meets self.now b }
    {
        let side = b.clipped_side();
        touches(self.at.x, self.size.x, b.at.x, side)
            && touches(self.at.y, self.size.y, b.at.y, side)
            && touches(self.at.z, self.size.z, b.at.z, side)
    }

    /// Whether every cell of the block is in the box.
    #[tactic(auto, using(crate::proofs::Overlaps::holds_when, crate::proofs::Overlaps::holds_only))]
    pub fn holds_block(&self, b: Block) -> bool
        ensures { IsTrue result ↔ HoldsBlock self.now b }
    {
        let side = b.clipped_side();
        covers(self.at.x, self.size.x, b.at.x, side)
            && covers(self.at.y, self.size.y, b.at.y, side)
            && covers(self.at.z, self.size.z, b.at.z, side)
    }
}

fn fits(at: u16, size: u16, side: u32) -> bool
    ensures { IsTrue result ↔ Fits at size side }
{
    size >= 1 && u32::from(at) + u32::from(size) <= side
}

fn has_place(low: u16, size: u16, place: u16) -> bool
    ensures exactly { IsTrue result ↔ IsWithin low size place }
    ensures value { result ≡ is_within low size place }
{
    low <= place && u32::from(place) < u32::from(low) + u32::from(size)
}

// Whether the stretch of `size` from `low` and that of `side` from `at` have a number in common.
fn touches(low: u16, size: u16, at: u16, side: u32) -> bool
    requires { side ≤ 2 ^ 18 }
    ensures { (s : ℕ) → side ≡ min s (2 ^ 18) → (IsTrue result ↔ Touches low size at s) }
{
    size >= 1
        && u32::from(at) < u32::from(low) + u32::from(size)
        && u32::from(low) < u32::from(at) + side
}

// Whether the stretch of `size` from `low` has every number of that of `side` from `at`.
fn covers(low: u16, size: u16, at: u16, side: u32) -> bool
    requires { side ≤ 2 ^ 18 }
    ensures { (s : ℕ) → side ≡ min s (2 ^ 18) → (IsTrue result ↔ Covers low size at s) }
{
    low <= at && u32::from(at) + side <= u32::from(low) + u32::from(size)
}
