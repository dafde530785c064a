ghost use Rattle.std.specs.Prelude.{◌≡◌, ◌/◌, ◌≤◌, ◌<◌, ◌↔◌, ◌^◌, IsTrue, true};
ghost use Rattle.std.specs.List.{slice_get};
ghost use Rattle.vw_cell.specs.Counts.{cell_at};
ghost use Rattle.vw_cell.specs.Places.{IsInBox, IsInWorld};
ghost use Rattle.vox_read.specs.Contents.{is_cell};
ghost use Rattle.history_model.specs.Logs.{FitsWorld, TintFits};
ghost use Rattle.history_model.specs.Making.{LayerIsMade, LayersAreMade, MayMake, RowIsMade, TellsWorld};
ghost use Rattle.history_model.specs.Parts.{made_in};
ghost use Rattle.history_model.specs.Stores.{edited_in};
ghost use Rattle.history_model.specs.Worlds.{World, is_edit, is_in_stamp, less, plus};

use crate::acts::{Act, TintAct};
use crate::parts::{CellSource, part, part_number};
use vox_read::{Models, Voxel};
use vw_cell::{Boxed, Cell, Side};

/// Whether the cells after are just those that the edit makes of the cells before, in the store of
/// this side.
///
/// It asks for each cell of the store.
pub fn may_make<F: Fn(Cell) -> bool, G: Fn(Cell) -> bool>(
    side: Side,
    models: &Models,
    act: &Act,
    before: &F,
    after: &G,
) -> bool
    requires fits { FitsWorld (2 ^ side) models.now act.now }
    requires edit { is_edit act.now ≡ true }
    requires before { F.IsAlwaysCallable before.now }
    requires after { G.IsAlwaysCallable after.now }
    ensures { (v w : World) → TellsWorld (F.post before.now) v → TellsWorld (G.post after.now) w
        → IsTrue result ↔ MayMake (2 ^ side) models.now act.now v w }
{
    let cells = side.cells() as u16;
    for z in 0..cells {
        if !is_layer_made(side, models, act, before, after, z) {
            return false;
        }
    }
    true
}

fn is_layer_made<F: Fn(Cell) -> bool, G: Fn(Cell) -> bool>(
    side: Side,
    models: &Models,
    act: &Act,
    before: &F,
    after: &G,
    z: u16,
) -> bool
    requires fits { FitsWorld (2 ^ side) models.now act.now }
    requires before { F.IsAlwaysCallable before.now }
    requires after { G.IsAlwaysCallable after.now }
    ensures { (v w : World) → TellsWorld (F.post before.now) v → TellsWorld (G.post after.now) w
        → IsTrue result ↔ LayerIsMade (2 ^ side) models.now act.now v w z (2 ^ side) }
{
    let cells = side.cells() as u16;
    for y in 0..cells {
        if !is_row_made(side, models, act, before, after, y, z) {
            return false;
        }
    }
    true
}

fn is_row_made<F: Fn(Cell) -> bool, G: Fn(Cell) -> bool>(
    side: Side,
    models: &Models,
    act: &Act,
    before: &F,
    after: &G,
    y: u16,
    z: u16,
) -> bool
    requires fits { FitsWorld (2 ^ side) models.now act.now }
    requires before { F.IsAlwaysCallable before.now }
    requires after { G.IsAlwaysCallable after.now }
    ensures { (v w : World) → TellsWorld (F.post before.now) v → TellsWorld (G.post after.now) w
        → IsTrue result ↔ RowIsMade (2 ^ side) models.now act.now v w y z (2 ^ side) }
{
    let cells = side.cells() as u16;
    for x in 0..cells {
        let q = Cell { x, y, z };
        let made = is_set(side, models, act, before, q);
        if after(q) != made {
            return false;
        }
    }
    true
}

// Whether the edit sets the cell.
#[tactic(auto, using(crate::proofs::PartLaws::fits_quarter, crate::proofs::PartLaws::made_quarter))]
fn is_set<F: Fn(Cell) -> bool>(side: Side, models: &Models, act: &Act, before: &F, q: Cell) -> bool
    requires fits { FitsWorld (2 ^ side) models.now act.now }
    requires before { F.IsAlwaysCallable before.now }
    ensures { (w : World) → TellsWorld (F.post before.now) w
        → result ≡ edited_in (2 ^ side) models.now act.now w q }
{
    let n = (side.cells() / 4) as u16;
    let was = before(q);
    match act {
        Act::Fill(b) => b.has(q) || was,
        Act::Erase(b) => was && !b.has(q),
        Act::Ball(ball) => ball.has(q) || was,
        Act::Carve(ball) => was && !ball.has(q),
        Act::Copy(b, to) => {
            let there = Boxed {
                at: *to,
                size: b.size,
            };
            if there.has(q) {
                before(moved(*b, *to, q))
            } else {
                was
            }
        }
        Act::Stamp(m, at) => is_in_stamp(models, *m, *at, q) || was,
        Act::Tint(act) => is_made(n, models, act, before, q),
        Act::Undo => was,
        Act::Redo => was,
    }
}

// Whether the parts of a tinted act set the cell, told from the last part back to the cells before
// the first.
fn is_made<F: Fn(Cell) -> bool>(n: u16, models: &Models, act: &TintAct, first: &F, q: Cell) -> bool
    requires n { n ≤ 1024 }
    requires fits { TintFits n models.now act.now }
    requires first { F.IsAlwaysCallable first.now }
    ensures { (w : World) → TellsWorld (F.post first.now) w
        → result ≡ made_in n models.now act.now w q }
{
    let parts = part_number(act);
    let mut at = q;
    for done in 0..parts {
        match part(n, models, act, parts - 1 - done, at) {
            CellSource::Fixed(set) => return set,
            CellSource::Read(p) => at = p,
        }
    }
    first(at)
}

// The place in the box that lies from its corner as the cell does from the other one.
pub(crate) fn moved(b: Boxed, to: Cell, q: Cell) -> Cell
    requires inside { IsInBox (record { at = to; size = b.size }) q }
    requires fits { FitsAt b.at b.size 4096 }
    ensures { result ≡ plus b.at (less q to) }
{
    Cell {
        x: b.at.x + (q.x - to.x),
        y: b.at.y + (q.y - to.y),
        z: b.at.z + (q.z - to.z),
    }
}

ghost use Rattle.vw_cell.specs.Places.{FitsAt};

// Whether the cell is one of the model, with the model's least corner at the place.
fn is_in_stamp(models: &Models, m: u16, at: Cell, q: Cell) -> bool
    ensures { result ≡ is_in_stamp (slice_get models.now m) at q }
{
    match models.list.get(usize::from(m)) {
        None => false,
        Some(model) => {
            let there = Boxed {
                at,
                size: model.size,
            };
            there.has(q) && is_cell(&model.voxels, from_corner(q, at))
        }
    }
}

// Where the place lies from a corner that it isn't before.
pub(crate) fn from_corner(q: Cell, at: Cell) -> Cell
    ensures { result ≡ less q at }
{
    Cell {
        x: q.x.saturating_sub(at.x),
        y: q.y.saturating_sub(at.y),
        z: q.z.saturating_sub(at.z),
    }
}

// Whether the last voxel at the place has a colour other than 0.
fn is_cell(voxels: &[Voxel], q: Cell) -> bool
    ensures { result ≡ is_cell voxels.now q }
{
    let mut set = false;
    for v in voxels {
        if u16::from(v.x) == q.x && u16::from(v.y) == q.y && u16::from(v.z) == q.z {
            set = v.colour != 0;
        }
    }
    set
}
