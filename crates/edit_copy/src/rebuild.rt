ghost use Rattle.std.specs.Prelude.{◌^◌, ℕ, OnOk, [], option_copied};
ghost use Rattle.vw_cell.specs.Places.{FitsAt};
ghost use Rattle.history_model.specs.Worlds.{edited};
ghost use Rattle.history_model.specs.declared.acts.Act.TheVariants.{Copy};
ghost use Rattle.edit_walk.specs.Edits.{MayEdit, Edits};
ghost use Rattle.edit_walk.specs.Memos.{RecallsHeld};
ghost use Rattle.edit_copy.specs.Copies.{MakesCopy};

use crate::copies::CopyTask;
use crate::starts::whole_task;
use edit_walk::{Latest, Memo, NoMemo, rebuild_world};
use node_words::{Full, NodeStore, Share, Steps, name_of};
use std::sync::ledger::Ledger;
use vw_cell::{Boxed, Cell, Side};

/// A share of the root of the world with the cells of the box put where its least corner goes to
/// another place, where a cell is set then. The cells are those before the copy, and cells that
/// were unset are unset there. A store that met a full bucket holds what it held.
#[tactic(auto, using(edit_walk::proofs::MemoLaws::recalls_none))]
pub fn rebuild_copy<N: NodeStore, L: Ledger>(
    store: &mut N,
    old: Option<&Share>,
    side: Side,
    from: Boxed,
    to: Cell,
    steps: &mut Steps<L>,
) -> Result<Option<Share>, Full>
    requires may { MayEdit 3910 (N.seen store.old) side (option_copied old) }
    requires from { FitsAt from.at from.size (2 ^ side) }
    requires to { FitsAt to from.size (2 ^ side) }
    ensures made { Edits (N.seen store.old) side (option_copied old.entry)
        (edited [] (Copy from to)) result (N.seen store.new) }
    ensures rests { N.rests store.old store.new }
{
    if !copy_may_repeat(from.size) {
        return rebuild_copy_with(store, old, side, from, to, &mut NoMemo, steps);
    }
    let mut memo = Latest::new();
    rebuild_copy_with(store, old, side, from, to, &mut memo, steps)
}

/// The same with a memo of blocks that such copies made before, of trees that are still held: a
/// block that is remembered is shared and not walked again. What is made joins the memo.
pub fn rebuild_copy_with<M: Memo<CopyTask>, N: NodeStore, L: Ledger>(
    store: &mut N,
    old: Option<&Share>,
    side: Side,
    from: Boxed,
    to: Cell,
    memo: &mut M,
    steps: &mut Steps<L>,
) -> Result<Option<Share>, Full>
    requires may { MayEdit 3910 (N.seen store.old) side (option_copied old) }
    requires memo { RecallsHeld MakesCopy (N.seen store.old).held (M.has memo.old) }
    requires from { FitsAt from.at from.size (2 ^ side) }
    requires to { FitsAt to from.size (2 ^ side) }
    ensures made { Edits (N.seen store.old) side (option_copied old.entry)
        (edited [] (Copy from to)) result (N.seen store.new) }
    ensures memo { OnOk result (RecallsHeld MakesCopy (N.seen store.new).held (M.has memo.new)) }
    ensures rests { N.rests store.old store.new }
{
    let task = whole_task(name_of(old), side, from, to);
    let _held = store.held();
    rebuild_world(store, side, &task, memo, steps)
}

// To remember blocks costs more than it saves in a box of at most this size on each axis.
const FEW: u16 = 32;

/// Whether many blocks of a copy may be alike, so that it pays to remember them.
pub fn copy_may_repeat(size: Cell) -> bool {
    size.x > FEW || size.y > FEW || size.z > FEW
}
