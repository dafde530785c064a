ghost use Rattle.std.specs.Prelude.{◌≡◌, ℕ, ◌^◌, ◌≤◌, option_copied};
ghost use Rattle.vw_cell.specs.Places.{block_side, IsInWorld};
ghost use Rattle.node_words.specs.descent.Roots.{HasBlock, ForBlock, HoldsRoot, ForWorld, cells_of};
ghost use Rattle.ray_walk.specs.Courses.{IsCourse, IsCourseIn, CourseMeets, BeginsBelow};

use crate::courses::Course;
use node_words::{Blocks, Name, look};
use vw_cell::Cell;

/// The first set cell of a block that the ray meets, from clear box to clear box.
pub(crate) fn walk<B: Blocks>(
    store: &mut B,
    level: u8,
    block: Option<Name>,
    course: &Course,
    from: Cell,
) -> Option<Cell>
    requires level { level ≤ 10 }
    requires block { HasBlock (B.seen store.old).held level block }
    requires course { IsCourse course.now }
    requires begins { BeginsBelow course.now (block_side level) }
    requires from { IsCourseIn course.now 0 from }
    requires cell { IsInWorld (block_side level) from }
    ensures meets { ForBlock (B.seen store.old).held level block
        (λ s. CourseMeets course.now (block_side level) (cells_of level s) result) }
    ensures seen { B.seen store.new ≡ B.seen store.old }
    ensures rests { B.rests store.old store.new }
{
    let side = world_side(level);
    let mut instant = 0;
    let mut cell = from;
    while let Some(clear) = look(store, level, block, cell) {
        let next = course.leaves(clear);
        match course.place(next, side) {
            Some(at) => {
                instant = next;
                cell = at;
            }
            None => return None,
        }
    }
    Some(cell)
}

// The side of a block, in cells.
#[tactic(auto, using(node_words::proofs::OfDescent::LookLaws::whole_side))]
fn world_side(level: u8) -> u16
    requires { level ≤ 10 }
    ensures { result ≡ block_side level }
{
    4 << level
}
