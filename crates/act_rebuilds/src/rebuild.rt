ghost use Rattle.std.specs.Prelude.{option_copied};
ghost use Rattle.act_rebuilds.specs.Acts.{MakesAct, MayMakeAct};

use crate::drawn::Lends;
use crate::lists::DrawnList;
use colour::rebuild_tint;
use edit_copy::rebuild_copy;
use edit_ops::{rebuild_ball, rebuild_box};
use edit_stamp::rebuild_stamp;
use history_model::Act;
use node_words::{Full, NodeStore, Share, Steps};
use std::sync::ledger::Ledger;
use vw_cell::Side;

/// A share of the root of what the edit makes of the store's cells, where a cell is set then. A
/// store that met a full bucket holds what it held.
pub fn rebuild_act<B: Lends + Drop, N: NodeStore, L: Ledger>(
    store: &mut N,
    old: Option<&Share>,
    side: Side,
    models: &DrawnList<B>,
    act: Act,
    steps: &mut Steps<L>,
) -> Result<Option<Share>, Full>
    requires may { MayMakeAct (N.seen store.old) side (option_copied old) models.now act }
    ensures made { MakesAct (N.seen store.old) side (option_copied old.entry) models.now.models act
        result (N.seen store.new) }
    ensures rests { N.rests store.old store.new }
{
    match act {
        Act::Fill(b) => rebuild_box(store, old, side, b, true, steps),
        Act::Erase(b) => rebuild_box(store, old, side, b, false, steps),
        Act::Ball(ball) => rebuild_ball(store, old, side, ball, true, steps),
        Act::Carve(ball) => rebuild_ball(store, old, side, ball, false, steps),
        Act::Copy(from, to) => rebuild_copy(store, old, side, from, to, steps),
        Act::Stamp(m, at) => {
            let stencil = models.stencil(m);
            rebuild_stamp(store, old, side, stencil, at, steps)
        }
        Act::Tint(t) => {
            let ink = models.ink(&t);
            rebuild_tint(store, old, side, &t, ink, steps)
        }
        Act::Undo | Act::Redo => unreachable!(),
    }
}
