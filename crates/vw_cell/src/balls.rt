ghost use Rattle.std.specs.Prelude.{◌≡◌, ◌↔◌, ℕ, ◌^◌, ◌*◌, ◌≤◌, IsSome, IfSome, IsTrue};
ghost use Rattle.vw_cell.specs.Places.{IsInBall, is_in_ball, IsInWorld, square};

use crate::cells::Cell;
use crate::sides::Side;

/// A ball of cells: those whose distance from the centre is at most the radius, in cells.
///
/// One made by [`Ball::new`] has its centre in that world. Cells of it that lie outside are
/// nobody's: a ball is clipped by the world.
#[derive(Clone, Copy, Debug, PartialEq, Eq)]
pub struct Ball {
    pub centre: Cell,
    pub radius: u16,
}

/// The greatest radius of a ball, in cells.
const MAX_RADIUS: u16 = 4095;

impl Ball {
    /// The ball round this cell. `None` where the centre is outside the world or the radius over
    /// 4,095.
    pub fn new(centre: Cell, radius: u16, side: Side) -> Option<Ball>
        ensures exactly { IsSome result ↔ (IsInWorld (2 ^ side) centre × (radius ≤ 4095)) }
        ensures value { IfSome result (λ b. (b.centre ≡ centre) × (b.radius ≡ radius)) }
    {
        if centre.is_in_world(side) && radius <= MAX_RADIUS {
            Some(Ball { centre, radius })
        } else {
            None
        }
    }

    /// Whether the cell is in the ball.
    pub fn has(&self, c: Cell) -> bool
        ensures exactly { IsTrue result ↔ IsInBall self.now c }
        ensures value { result ≡ is_in_ball self.now c }
    {
        let x = squared(self.centre.x.abs_diff(c.x));
        let y = squared(self.centre.y.abs_diff(c.y));
        let z = squared(self.centre.z.abs_diff(c.z));
        x + y + z <= squared(self.radius)
    }
}

#[tactic(auto, using(crate::proofs::Squares::square_bound))]
fn squared(n: u16) -> u64
    ensures value { result ≡ square n }
    ensures bound { result ≤ 65535 * 65535 }
{
    u64::from(n) * u64::from(n)
}
