ghost use Rattle.std.specs.Prelude.{◌≡◌, ◌+◌, ◌-◌, ◌*◌, ◌^◌, ◌<◌, ◌≤◌, ℕ, Bool, true, false, IsTrue};
ghost use Rattle.std.specs.Int.{abs_diff};
ghost use Rattle.vw_cell.specs.Counts.{cell_at};
ghost use Rattle.vw_cell.specs.Places.{square, is_in_ball};
ghost use Rattle.edit_ops.specs.Balls.{world_task};

use crate::boxes::word_of;
use edit_walk::{Repeats, Task, Whole, clears_nothing, filled, old_whole, paint, side_of};
use node_words::{Blocks, Name, ball_bits, leaf_bits, same_cells, same_names};
use vw_cell::{Ball, Block, Cell};

/// Whether a place lies in a ball.
#[derive(Clone, Copy)]
pub enum Reach {
    Within,
    Beyond,
}

/// Sets or clears the cells of a ball in the block at a place of the world. What is told of the
/// block's nearest and farthest places stands in it, so that eight octants whose tasks are told
/// side by side share the squares of their distances.
#[derive(Clone, Copy)]
pub struct BallTask {
    pub old: Option<Name>,
    pub ball: Ball,
    pub at: Cell,
    pub set: bool,
    pub near: Reach,
    pub far: Reach,
}

impl BallTask {
    /// The task of the whole world, of which nothing is told.
    pub fn of_world(old: Option<Name>, ball: Ball, set: bool) -> BallTask
        ensures { result ≡ world_task old ball set }
    {
        BallTask {
            old,
            ball,
            at: Cell { x: 0, y: 0, z: 0 },
            set,
            near: Reach::Within,
            far: Reach::Beyond,
        }
    }
}

impl Task for BallTask {
    ghost use Rattle.std.specs.Prelude.{◌-◌};
    ghost use Rattle.edit_walk.specs.cells.Tasks.{blocks_in};
    ghost use Rattle.edit_ops.specs.Balls.{makes_ball, ball_lasts};

    ghost makes = { makes_ball };

    ghost lasts = { λ t. ball_lasts t.old t.ball t.at t.set t.near t.far };

    ghost mixed = { λ level t. blocks_in level };

    ghost mixed_in = { λ level t k. blocks_in (level - 1) };

    ghost was = { λ t. t.old };

    fn old(&self) -> Option<Name> {
        self.old
    }

    #[inline(always)]
    fn octant<B: Blocks>(
        &self,
        _store: &mut B,
        level: u8,
        octant: u8,
        old: Option<Name>,
    ) -> BallTask {
        let block = Block { level, at: self.at };
        let part = block.child(octant);
        let side = side_of(level - 1);
        let near = near_of(self.ball, part.at, side);
        let far = far_of(self.ball, part.at, side);
        BallTask {
            old,
            ball: self.ball,
            at: part.at,
            set: self.set,
            near,
            far,
        }
    }

    #[inline(always)]
    fn whole(&self, _level: u8) -> Whole {
        if self.near.is_beyond() {
            return old_whole(self.old);
        }
        if self.far.is_within() {
            return filled(self.set);
        }
        if clears_nothing(self.set, self.old) {
            return Whole::Nothing;
        }
        Whole::Mixed
    }

    fn bits<B: Blocks>(&self, store: &mut B) -> u64 {
        let old = leaf_bits(store, self.old);
        let inside = ball_bits(
            self.ball,
            Block {
                level: 0,
                at: self.at,
            },
        );
        paint(self.set, old, inside)
    }
}

impl Repeats for BallTask {
    fn is_same(&self, other: &BallTask) -> bool {
        same_tasks(self, other)
    }

    fn place(&self, level: u8) -> usize {
        place_of(level, self.at)
    }
}

fn same_tasks(a: &BallTask, b: &BallTask) -> bool
    ensures { IsTrue result → (a.now.old ≡ b.now.old) × (a.now.ball ≡ b.now.ball)
        × (a.now.at ≡ b.now.at) × (a.now.set ≡ b.now.set) }
{
    if !same_names(a.old, b.old) {
        return false;
    }
    if !same_balls(a.ball, b.ball) {
        return false;
    }
    if !same_cells(a.at, b.at) {
        return false;
    }
    a.set == b.set
}

fn same_balls(a: Ball, b: Ball) -> bool
    ensures { IsTrue result → a ≡ b }
{
    same_cells(a.centre, b.centre) && a.radius == b.radius
}

// Walks of one ball meet each block of the world once, so its place there is enough.
fn place_of(level: u8, at: Cell) -> usize
    ensures { result < 2048 }
{
    let at = word_of(at) + u64::from(level);
    let mixed = at.wrapping_mul(0x9E37_79B9_7F4A_7C15);
    (mixed >> 53) as usize % 2048
}

impl Reach {
    #[inline(always)]
    fn is_beyond(self) -> bool
        ensures { IsTrue result → self ≡ Reach.Beyond }
    {
        matches!(self, Reach::Beyond)
    }

    #[inline(always)]
    fn is_within(self) -> bool
        ensures { IsTrue result → self ≡ Reach.Within }
    {
        matches!(self, Reach::Within)
    }
}

// Where the nearest place of the cube from `at` on lies. Both are told without a branch between
// them, and so they are told once for all octants with that half of an axis.
#[inline(always)]
fn near_of(ball: Ball, at: Cell, side: u32) -> Reach
    requires side { (1 ≤ side) × (side ≤ 4096) }
    ensures { result ≡ Reach.Beyond → (x y z : ℕ) → x < side → y < side → z < side
        → is_in_ball ball (cell_at (at.x + x) (at.y + y) (at.z + z)) ≡ false }
{
    if is_outside(ball, at, side) {
        Reach::Beyond
    } else {
        Reach::Within
    }
}

// Where the farthest place of the cube from `at` on lies.
#[inline(always)]
fn far_of(ball: Ball, at: Cell, side: u32) -> Reach
    requires side { (1 ≤ side) × (side ≤ 4096) }
    ensures { result ≡ Reach.Within → (x y z : ℕ) → x < side → y < side → z < side
        → is_in_ball ball (cell_at (at.x + x) (at.y + y) (at.z + z)) ≡ true }
{
    if is_inside(ball, at, side) {
        Reach::Within
    } else {
        Reach::Beyond
    }
}

// Whether the nearest place of the cube from `at` on lies outside the ball.
#[inline(always)]
#[tactic(auto, using(crate::proofs::BallLaws::outside))]
pub(crate) fn is_outside(ball: Ball, at: Cell, side: u32) -> bool
    requires side { (1 ≤ side) × (side ≤ 4096) }
    ensures { IsTrue result → (x y z : ℕ) → x < side → y < side → z < side
        → is_in_ball ball (cell_at (at.x + x) (at.y + y) (at.z + z)) ≡ false }
{
    let x = nearest(ball.centre.x, at.x, side);
    let y = nearest(ball.centre.y, at.y, side);
    let z = nearest(ball.centre.z, at.z, side);
    4 * squared(u32::from(ball.radius)) < x + y + z
}

// Whether the farthest place of the cube from `at` on lies in the ball.
#[inline(always)]
#[tactic(auto, using(crate::proofs::BallLaws::inside))]
pub(crate) fn is_inside(ball: Ball, at: Cell, side: u32) -> bool
    requires side { (1 ≤ side) × (side ≤ 4096) }
    ensures { IsTrue result → (x y z : ℕ) → x < side → y < side → z < side
        → is_in_ball ball (cell_at (at.x + x) (at.y + y) (at.z + z)) ≡ true }
{
    let x = farthest(ball.centre.x, at.x, side);
    let y = farthest(ball.centre.y, at.y, side);
    let z = farthest(ball.centre.z, at.z, side);
    x + y + z <= 4 * squared(u32::from(ball.radius))
}

// The greatest square of twice a distance on one axis.
const FAR: u64 = 139_260 * 139_260;

#[inline(always)]
#[tactic(auto, using(crate::proofs::BallLaws::square_bound))]
fn squared(n: u32) -> u64
    requires { n ≤ 139260 }
    ensures value { result ≡ square n }
    ensures bound { result ≤ FAR }
{
    u64::from(n) * u64::from(n)
}

// Twice the distance of the centre from the middle of the `side` places from `at` on. What is
// nearest and what is farthest follow from it alone.
#[inline(always)]
fn apart(centre: u16, at: u16, side: u32) -> u32
    requires side { (1 ≤ side) × (side ≤ 4096) }
    ensures apart { result ≡ abs_diff (2 * centre) (2 * at + side - 1) }
    ensures bound { result ≤ 135165 }
{
    let centre = 2 * u32::from(centre);
    let middle = 2 * u32::from(at) + side - 1;
    centre.abs_diff(middle)
}

// No more than the square of twice any distance of the centre from the `side` places from `at` on.
#[inline(always)]
#[tactic(auto, using(crate::proofs::BallLaws::near_below))]
fn nearest(centre: u16, at: u16, side: u32) -> u64
    requires side { (1 ≤ side) × (side ≤ 4096) }
    ensures below { (i : ℕ) → i < side → result ≤ 4 * square (abs_diff centre (at + i)) }
    ensures bound { result ≤ FAR }
{
    squared(apart(centre, at, side).saturating_sub(side - 1))
}

// No less than the square of twice any distance of the centre from the `side` places from `at` on.
#[inline(always)]
fn farthest(centre: u16, at: u16, side: u32) -> u64
    requires side { (1 ≤ side) × (side ≤ 4096) }
    ensures above { (i : ℕ) → i < side → 4 * square (abs_diff centre (at + i)) ≤ result }
    ensures bound { result ≤ FAR }
{
    squared(apart(centre, at, side) + (side - 1))
}
