ghost use Rattle.std.specs.Prelude.{◌+◌, ◌-◌, ◌*◌, ◌≤◌, ◌^◌, ℕ, OnOk, [], option_copied};
ghost use Rattle.vw_cell.specs.Places.{FitsAt, IsInWorld};
ghost use Rattle.history_model.specs.Worlds.{edited};
ghost use Rattle.edit_walk.specs.Edits.{MayEdit, Edits};
ghost use Rattle.edit_walk.specs.Memos.{RecallsHeld};
ghost use Rattle.edit_ops.specs.Boxes.{MakesBox, box_act};
ghost use Rattle.edit_ops.specs.Balls.{ball_act, makes_ball};
ghost use Rattle.edit_ops.specs.Clips.{clipped};
ghost use Rattle.edit_ops.specs.Partly.{world_partly};

use crate::balls::BallTask;
use crate::boxes::BoxTask;
use crate::clips::ClipTask;
use edit_walk::{Latest, Memo, NoMemo, is_large, rebuild_world};
use node_words::{Full, NodeStore, Share, Steps, name_of};
use std::sync::ledger::Ledger;
use vw_cell::{Ball, Boxed, Cell, Side};

/// A share of the root of the world with the cells of the box set or cleared, where a cell is set
/// then. A store that met a full bucket holds what it held.
#[tactic(auto, using(edit_walk::proofs::MemoLaws::recalls_none))]
pub fn rebuild_box<N: NodeStore, L: Ledger>(
    store: &mut N,
    old: Option<&Share>,
    side: Side,
    b: Boxed,
    set: bool,
    steps: &mut Steps<L>,
) -> Result<Option<Share>, Full>
    requires may { MayEdit 3910 (N.seen store.old) side (option_copied old) }
    requires inside { FitsAt b.at b.size (2 ^ side) }
    ensures made { Edits (N.seen store.old) side (option_copied old.entry)
        (edited [] (box_act set b)) result (N.seen store.new) }
    ensures rests { N.rests store.old store.new }
    // 25 turns a block of the world that meets the box without lying in it, and 25 a level.
    ensures turns { OnOk result
        (steps.new ≤ steps.old + 25 * world_partly side b + 25 * (side - 1)) }
{
    if box_may_repeat(b.size, side) {
        let mut memo = Latest::new();
        return rebuild_box_with(store, old, side, b, set, &mut memo, steps);
    }
    rebuild_box_with(store, old, side, b, set, &mut NoMemo, steps)
}

/// Whether many blocks of a box may be alike, so that it pays to remember them. Where the box is
/// the whole world, nothing is walked.
pub fn box_may_repeat(size: Cell, side: Side) -> bool {
    is_large(size) && u32::from(size.x.min(size.y).min(size.z)) < side.cells()
}

/// The same with a memo of blocks that such edits made before, of trees that are still held: a
/// block that is remembered is shared and not walked again. What is made joins the memo.
pub fn rebuild_box_with<M: Memo<BoxTask>, N: NodeStore, L: Ledger>(
    store: &mut N,
    old: Option<&Share>,
    side: Side,
    b: Boxed,
    set: bool,
    memo: &mut M,
    steps: &mut Steps<L>,
) -> Result<Option<Share>, Full>
    requires may { MayEdit 3910 (N.seen store.old) side (option_copied old) }
    requires memo { RecallsHeld MakesBox (N.seen store.old).held (M.has memo.old) }
    requires inside { FitsAt b.at b.size (2 ^ side) }
    ensures made { Edits (N.seen store.old) side (option_copied old.entry)
        (edited [] (box_act set b)) result (N.seen store.new) }
    ensures memo { OnOk result (RecallsHeld MakesBox (N.seen store.new).held (M.has memo.new)) }
    ensures rests { N.rests store.old store.new }
    ensures turns { OnOk result
        (steps.new ≤ steps.old + 25 * world_partly side b + 25 * (side - 1)) }
{
    let task = BoxTask {
        old: name_of(old),
        part: b,
        set,
    };
    let _held = store.held();
    let _level = side.root_level();
    rebuild_world(store, side, &task, memo, steps)
}

/// A share of the root of the world with the cells of the ball set or cleared, where a cell is set
/// then. A store that met a full bucket holds what it held.
#[tactic(auto, using(edit_walk::proofs::MemoLaws::recalls_none))]
pub fn rebuild_ball<N: NodeStore, L: Ledger>(
    store: &mut N,
    old: Option<&Share>,
    side: Side,
    ball: Ball,
    set: bool,
    steps: &mut Steps<L>,
) -> Result<Option<Share>, Full>
    requires may { MayEdit 3910 (N.seen store.old) side (option_copied old) }
    requires inside { IsInWorld (2 ^ side) ball.centre }
    ensures made { Edits (N.seen store.old) side (option_copied old.entry)
        (edited [] (ball_act set ball)) result (N.seen store.new) }
    ensures rests { N.rests store.old store.new }
{
    rebuild_ball_with(store, old, side, &ball, set, &mut NoMemo, steps)
}

/// The same with a memo of blocks that such edits made before, of trees that are still held. Such a
/// block is shared and not walked again, and what is made joins the memo.
pub fn rebuild_ball_with<M: Memo<BallTask>, N: NodeStore, L: Ledger>(
    store: &mut N,
    old: Option<&Share>,
    side: Side,
    ball: &Ball,
    set: bool,
    memo: &mut M,
    steps: &mut Steps<L>,
) -> Result<Option<Share>, Full>
    requires may { MayEdit 3910 (N.seen store.old) side (option_copied old) }
    requires memo { RecallsHeld makes_ball (N.seen store.old).held (M.has memo.old) }
    requires inside { IsInWorld (2 ^ side) ball.now.centre }
    ensures made { Edits (N.seen store.old) side (option_copied old.entry)
        (edited [] (ball_act set ball.now)) result (N.seen store.new) }
    ensures memo { OnOk result (RecallsHeld makes_ball (N.seen store.new).held (M.has memo.new)) }
    ensures rests { N.rests store.old store.new }
{
    let task = BallTask::of_world(name_of(old), *ball, set);
    let _held = store.held();
    let _level = side.root_level();
    rebuild_world(store, side, &task, memo, steps)
}

/// A share of the root of the world with the cells of the ball that lie in the box set or cleared,
/// where a cell is set then. A store that met a full bucket holds what it held.
#[tactic(auto, using(edit_walk::proofs::MemoLaws::recalls_none))]
pub fn rebuild_ball_in<N: NodeStore, L: Ledger>(
    store: &mut N,
    old: Option<&Share>,
    side: Side,
    ball: Ball,
    within: Boxed,
    set: bool,
    steps: &mut Steps<L>,
) -> Result<Option<Share>, Full>
    requires may { MayEdit 3910 (N.seen store.old) side (option_copied old) }
    requires inside { IsInWorld (2 ^ side) ball.centre }
    requires within { FitsAt within.at within.size (2 ^ side) }
    ensures made { Edits (N.seen store.old) side (option_copied old.entry)
        (clipped set ball within) result (N.seen store.new) }
    ensures rests { N.rests store.old store.new }
{
    let task = ClipTask {
        old: name_of(old),
        ball: &ball,
        within: &within,
        at: Cell { x: 0, y: 0, z: 0 },
        set,
    };
    let _held = store.held();
    let _level = side.root_level();
    rebuild_world(store, side, &task, &mut NoMemo, steps)
}
