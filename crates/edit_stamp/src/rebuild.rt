ghost use Rattle.std.specs.Prelude.{◌^◌, option_copied};
ghost use Rattle.vw_cell.specs.Places.{FitsAt};
ghost use Rattle.edit_walk.specs.Edits.{MayEdit, Edits};
ghost use Rattle.edit_stamp.specs.Stamps.{stamped, unstamped, inked};

use crate::stamps::StampTask;
use crate::stencils::Stencil;
use edit_walk::{NoMemo, name_of, rebuild_world};
use node_words::{Full, NodeStore, Share, Steps};
use std::sync::ledger::Ledger;
use vw_cell::{Cell, Side};

/// A share of the root of the world with the cells of a model set, whose least corner is at this
/// place, where a cell is set then. A store that met a full bucket holds what it held.
pub fn rebuild_stamp<N: NodeStore, L: Ledger>(
    store: &mut N,
    old: Option<&Share>,
    side: Side,
    stencil: &Stencil,
    at: Cell,
    steps: &mut Steps<L>,
) -> Result<Option<Share>, Full>
    requires may { MayEdit 3910 (N.seen store.old) side (option_copied old) }
    requires inside { FitsAt at stencil.now.size (2 ^ side) }
    ensures made { Edits (N.seen store.old) side (option_copied old.entry)
        (stamped stencil.now at) result (N.seen store.new) }
    ensures rests { N.rests store.old store.new }
{
    ink(store, old, side, stencil, at, true, steps)
}

/// A share of the root of the world with the cells of a model cleared, whose least corner is at
/// this place, where a cell is set then. A store that met a full bucket holds what it held.
pub fn rebuild_unstamp<N: NodeStore, L: Ledger>(
    store: &mut N,
    old: Option<&Share>,
    side: Side,
    stencil: &Stencil,
    at: Cell,
    steps: &mut Steps<L>,
) -> Result<Option<Share>, Full>
    requires may { MayEdit 3910 (N.seen store.old) side (option_copied old) }
    requires inside { FitsAt at stencil.now.size (2 ^ side) }
    ensures made { Edits (N.seen store.old) side (option_copied old.entry)
        (unstamped stencil.now at) result (N.seen store.new) }
    ensures rests { N.rests store.old store.new }
{
    ink(store, old, side, stencil, at, false, steps)
}

// A share of the root of the world with the cells of a model set or cleared.
#[tactic(auto, using(edit_walk::proofs::MemoLaws::recalls_none))]
fn ink<N: NodeStore, L: Ledger>(
    store: &mut N,
    old: Option<&Share>,
    side: Side,
    stencil: &Stencil,
    at: Cell,
    set: bool,
    steps: &mut Steps<L>,
) -> Result<Option<Share>, Full>
    requires may { MayEdit 3910 (N.seen store.old) side (option_copied old) }
    requires inside { FitsAt at stencil.now.size (2 ^ side) }
    ensures made { Edits (N.seen store.old) side (option_copied old.entry)
        (inked set stencil.now at) result (N.seen store.new) }
    ensures rests { N.rests store.old store.new }
{
    let task = StampTask {
        old: name_of(old),
        stencil,
        place: &at,
        at: Cell { x: 0, y: 0, z: 0 },
        set,
    };
    let _held = store.held();
    let _cells = side.cells();
    let _level = side.root_level();
    rebuild_world(store, side, &task, &mut NoMemo, steps)
}
