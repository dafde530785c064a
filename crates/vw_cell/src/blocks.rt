ghost use Rattle.std.specs.Prelude.{◌≡◌, ℕ, ◌^◌, ◌≤◌, ◌<◌, ◌*◌, min};
ghost use Rattle.vw_cell.specs.Places.{block_side, octant_of, LiesIn};

use crate::cells::Cell;

/// An aligned cube of cells of side 4 * 2^level, with its least corner.
#[derive(Clone, Copy, Debug, PartialEq, Eq)]
pub struct Block {
    pub level: u8,
    pub at: Cell,
}

impl Block {
    #[tactic(auto, using(crate::proofs::Halves::block_side_halves))]
    /// One of the eight octants, of the level below. An octant's number is x + 2y + 4z of its
    /// halves.
    pub fn child(&self, octant: u8) -> Block
        requires level { (1 ≤ self.now.level) × (self.now.level ≤ 10) }
        requires inside { LiesIn 4096 self.now }
        requires octant { octant < 8 }
        ensures { result ≡ octant_of self.now octant }
    {
        let level = self.level - 1;
        let half = half_side(level);
        let at = Cell {
            x: self.at.x + half * u16::from(octant % 2),
            y: self.at.y + half * u16::from(octant / 2 % 2),
            z: self.at.z + half * u16::from(octant / 4 % 2),
        };
        Block { level, at }
    }

    // The side in cells, cut at 2^18, past which no box reaches.
    #[tactic(auto, using(crate::proofs::Halves::shift_exact, crate::proofs::Halves::large_side))]
    pub(crate) fn clipped_side(&self) -> u32
        ensures { result ≡ min (block_side self.now.level) (2 ^ 18) }
    {
        if self.level < 16 {
            4 << self.level
        } else {
            1 << 18
        }
    }
}

#[tactic(auto, using(crate::proofs::Halves::shift_exact))]
fn half_side(level: u8) -> u16
    requires { level ≤ 9 }
    ensures { result ≡ block_side level }
{
    4 << level
}
