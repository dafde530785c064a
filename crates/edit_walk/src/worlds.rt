ghost use Rattle.std.specs.Prelude.{◌≡◌, ◌+◌, ◌-◌, ◌*◌, ◌≤◌, ℕ, OnOk};
ghost use Rattle.node_words.specs.shapes.Weights.{number_of_trees};
ghost use Rattle.edit_walk.specs.Edits.{Rebuilds};
ghost use Rattle.edit_walk.specs.Memos.{RecallsHeld};
ghost use Rattle.edit_walk.specs.Walks.{MakesWorld, ForWorlds};

use crate::cells::Task;
use crate::memos::Memo;
use crate::walks::rebuild;
use node_words::{Full, NodeStore, Share, Steps};
use std::sync::ledger::Ledger;
use vw_cell::Side;

/// A share of the root of the world that the task makes, where a cell of it is set. The memo begins
/// with nothing. A store that met a full bucket holds what it held.
pub fn rebuild_world<T: Task, M: Memo<T>, N: NodeStore, L: Ledger>(
    store: &mut N,
    side: Side,
    task: &T,
    memo: &mut M,
    steps: &mut Steps<L>,
) -> Result<Option<Share>, Full>
    requires side { side ≡ (N.seen store.old).plan.side }
    requires memo { RecallsHeld T.makes (N.seen store.old).held (M.has memo.old) }
    requires task { MakesWorld (T.makes task.now) (N.seen store.old).held side }
    requires room { number_of_trees (N.seen store.old).held ≤ 3910 }
    ensures made { ForWorlds (T.makes task.now) (N.seen store.old).held side
        (λ world. Rebuilds (side - 2) world result (N.seen store.old) (N.seen store.new)) }
    ensures memo { OnOk result (RecallsHeld T.makes (N.seen store.new).held (M.has memo.new)) }
    ensures rests { N.rests store.old store.new }
    ensures turns { OnOk result
        (steps.new ≤ steps.old + 25 * T.mixed (side - 2) task.now + 25 * (side - 1)) }
{
    let level = side.root_level();
    rebuild(store, level, task, memo, steps)
}
