ghost use Rattle.std.specs.Prelude.{◌≤◌, ℕ, Option, option_copied};
ghost use Rattle.vw_cell.specs.Places.{is_in_box, is_in_ball};
ghost use Rattle.edit_walk.specs.Edits.{MayEdit, Edits};
ghost use Rattle.colour.specs.Walks.{all_planes, fill_edit};

use crate::planes::tells;
use crate::walks::{Planes, rebuild_planes};
use edit_ops::{BallTask, BoxTask};
use edit_walk::{Latest, Upper, is_large};
use node_words::{Full, Name, NodeStore, Share, Steps};
use std::sync::ledger::Ledger;
use vw_cell::{Ball, Boxed, Cell, Side};

/// The planes in which the cells of a box get a tint, 0 for none.
#[derive(Clone, Copy)]
pub(crate) struct BoxPlanes {
    b: Boxed,
    tint: u8,
}

impl Planes<BoxTask> for BoxPlanes {
    ghost use Rattle.colour.specs.Fills.{box_task};

    ghost task_of = { box_task };

    fn task(&self, plane: u8, old: Option<Name>) -> BoxTask {
        BoxTask {
            old,
            part: self.b,
            set: tells(plane, self.tint),
        }
    }
}

/// The planes in which the cells of a ball get a tint, 0 for none.
#[derive(Clone, Copy)]
pub(crate) struct BallPlanes<'b> {
    ball: &'b Ball,
    tint: u8,
}

impl<'b> Planes<BallTask> for BallPlanes<'b> {
    ghost use Rattle.colour.specs.Fills.{ball_task};

    ghost task_of = { ball_task };

    fn task(&self, plane: u8, old: Option<Name>) -> BallTask {
        BallTask::of_world(old, *self.ball, tells(plane, self.tint))
    }
}

// Whether many blocks of a box may be alike, as in a plain fill of it, or planes are too small for
// a memo of large blocks.
fn may_repeat(size: Cell, side: Side) -> bool {
    let n = side.cells() / 4;
    n < 32 || is_large(size) && u32::from(size.x.min(size.y).min(size.z)) < n
}

/// A share of the root of the store's world with a tint for the cells of a box, 0 for none.
pub(crate) fn rebuild_box_tint<N: NodeStore, L: Ledger>(
    store: &mut N,
    old: Option<&Share>,
    side: Side,
    b: Boxed,
    tint: u8,
    steps: &mut Steps<L>,
) -> Result<Option<Share>, Full>
    requires may { MayEdit 3910 (N.seen store.old) side (option_copied old) }
    requires large { 4 ≤ side }
    ensures made { Edits (N.seen store.old) side (option_copied old.entry)
        (all_planes side (fill_edit (is_in_box b) tint)) result (N.seen store.new) }
    ensures rests { N.rests store.old store.new }
{
    let planes = BoxPlanes { b, tint };
    let _exponent = side.exponent();
    if may_repeat(b.size, side) {
        let mut memo = Latest::new();
        return rebuild_planes(store, old, side, planes, &mut memo, steps);
    }
    let mut memo = Upper::new();
    rebuild_planes(store, old, side, planes, &mut memo, steps)
}

/// The same for the cells of a ball.
pub(crate) fn rebuild_ball_tint<N: NodeStore, L: Ledger>(
    store: &mut N,
    old: Option<&Share>,
    side: Side,
    ball: Ball,
    tint: u8,
    steps: &mut Steps<L>,
) -> Result<Option<Share>, Full>
    requires may { MayEdit 3910 (N.seen store.old) side (option_copied old) }
    requires large { 4 ≤ side }
    ensures made { Edits (N.seen store.old) side (option_copied old.entry)
        (all_planes side (fill_edit (is_in_ball ball) tint)) result (N.seen store.new) }
    ensures rests { N.rests store.old store.new }
{
    let planes = BallPlanes { ball: &ball, tint };
    let _exponent = side.exponent();
    let mut memo = Upper::new();
    rebuild_planes(store, old, side, planes, &mut memo, steps)
}
