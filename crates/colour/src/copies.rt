ghost use Rattle.std.specs.Prelude.{◌-◌, ◌^◌, ◌<◌, ◌≤◌, ℕ, suc, Option, option_copied};
ghost use Rattle.vw_cell.specs.Places.{FitsAt};
ghost use Rattle.node_words.specs.declared.shapes.names.Name.{Name};
ghost use Rattle.node_words.specs.Held.{StoreState};
ghost use Rattle.edit_walk.specs.Edits.{MayEdit, Edits};
ghost use Rattle.history_model.specs.Worlds.{copied};
ghost use Rattle.colour.specs.Made.{MakesParts, PartsMade, copy_parts, made_at};

use crate::planes::{plane_at, plus};
use edit_copy::rebuild_copy;
use edit_walk::back_if;
use node_words::{Full, NodeStore, Share, Steps};
use std::sync::ledger::Ledger;
use vw_cell::{Boxed, Cell, Side};

/// A share of the root of the store's world with the tints of a box copied, plane after plane.
/// Roots between them go back. A store that met a full bucket holds what it held.
pub(crate) fn rebuild_copied_tints<N: NodeStore, L: Ledger>(
    store: &mut N,
    old: Option<&Share>,
    side: Side,
    b: Boxed,
    to: Cell,
    steps: &mut Steps<L>,
) -> Result<Option<Share>, Full>
    requires may { MayEdit 3909 (N.seen store.old) side (option_copied old) }
    requires large { 4 ≤ side }
    requires from { FitsAt b.at b.size (2 ^ (side - 2)) }
    requires to { FitsAt to b.size (2 ^ (side - 2)) }
    ensures made { MakesParts (N.seen store.old) side (option_copied old.entry)
        (copy_parts side b to) 9 result (N.seen store.new) }
    ensures rests { N.rests store.old store.new }
{
    let mut now = match copy_part(store, old, side, 0, b, to, steps) {
        Ok(root) => root,
        Err(full) => return Err(full),
    };
    for plane in 1..9u8 {
        match next_part(store, now, side, plane, b, to, steps) {
            Ok(root) => now = root,
            Err(full) => return Err(full),
        }
    }
    Ok(now)
}

// One more plane, over a root that goes back.
fn next_part<N: NodeStore, L: Ledger>(
    store: &mut N,
    now: Option<Share>,
    side: Side,
    plane: u8,
    b: Boxed,
    to: Cell,
    steps: &mut Steps<L>,
) -> Result<Option<Share>, Full>
    requires may { MayEdit 3910 (N.seen store.old) side now }
    requires large { 4 ≤ side }
    requires plane { plane < 9 }
    requires from { FitsAt b.at b.size (2 ^ (side - 2)) }
    requires to { FitsAt to b.size (2 ^ (side - 2)) }
    ensures made { (first : StoreState) (root : Option Name)
        → PartsMade first side root (copy_parts side b to) plane now (N.seen store.old)
        → MakesParts first side root (copy_parts side b to) (suc plane) result
        (N.seen store.new) }
    ensures rests { N.rests store.old store.new }
{
    let next = copy_part(store, now.as_ref(), side, plane, b, to, steps);
    back_if(store, now, steps);
    next
}

// The cells of a box copied within one plane.
fn copy_part<N: NodeStore, L: Ledger>(
    store: &mut N,
    old: Option<&Share>,
    side: Side,
    plane: u8,
    b: Boxed,
    to: Cell,
    steps: &mut Steps<L>,
) -> Result<Option<Share>, Full>
    requires may { MayEdit 3910 (N.seen store.old) side (option_copied old) }
    requires large { 4 ≤ side }
    requires plane { plane < 9 }
    requires from { FitsAt b.at b.size (2 ^ (side - 2)) }
    requires to { FitsAt to b.size (2 ^ (side - 2)) }
    ensures made { Edits (N.seen store.old) side (option_copied old.entry)
        (made_at side plane (copied b to)) result (N.seen store.new) }
    ensures rests { N.rests store.old store.new }
{
    let corner = plane_at(side, plane);
    let moved = Boxed {
        at: plus(corner, b.at),
        size: b.size,
    };
    rebuild_copy(store, old, side, moved, plus(corner, to), steps)
}
