ghost use Rattle.std.specs.Prelude.{◌-◌, ◌^◌, ◌≤◌, option_copied};
ghost use Rattle.edit_walk.specs.Edits.{MayEdit};
ghost use Rattle.history_model.specs.Parts.{part_number};
ghost use Rattle.colour.specs.Inks.{FitsInk, parts_in};
ghost use Rattle.colour.specs.Made.{MakesParts};

use crate::copies::rebuild_copied_tints;
use crate::fills::{rebuild_ball_tint, rebuild_box_tint};
use crate::stamps::rebuild_ink_stamp;
use crate::stencils::TintStencil;
use history_model::TintAct;
use node_words::{Full, NodeStore, Share, Steps};
use std::sync::ledger::Ledger;
use vw_cell::Side;

/// A share of the root of the store's world in which the parts of a tinted act were made one after
/// another, where a cell is set then. Roots between them go back. A store that met a full bucket
/// holds what it held.
pub fn rebuild_tint<N: NodeStore, L: Ledger>(
    store: &mut N,
    old: Option<&Share>,
    side: Side,
    act: &TintAct,
    stencil: Option<&TintStencil>,
    steps: &mut Steps<L>,
) -> Result<Option<Share>, Full>
    requires may { MayEdit 3909 (N.seen store.old) side (option_copied old) }
    requires large { 4 ≤ side }
    requires fits { FitsInk (2 ^ (side - 2)) act.now (option_copied stencil) }
    ensures made { MakesParts (N.seen store.old) side (option_copied old.entry)
        (parts_in (2 ^ (side - 2)) act.now (option_copied stencil.entry)) (part_number act.now)
        result (N.seen store.new) }
    ensures rests { N.rests store.old store.new }
{
    match *act {
        TintAct::Fill(b, c) => rebuild_box_tint(store, old, side, b, c, steps),
        TintAct::Erase(b) => rebuild_box_tint(store, old, side, b, 0, steps),
        TintAct::Ball(ball, c) => rebuild_ball_tint(store, old, side, ball, c, steps),
        TintAct::Carve(ball) => rebuild_ball_tint(store, old, side, ball, 0, steps),
        TintAct::Copy(b, to) => rebuild_copied_tints(store, old, side, b, to, steps),
        TintAct::Stamp(_, at) => match stencil {
            Some(drawn) => rebuild_ink_stamp(store, old, side, drawn, at, steps),
            None => unreachable!(),
        },
    }
}
