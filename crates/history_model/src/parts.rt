ghost use Rattle.std.specs.Prelude.{◌≡◌, ◌≤◌, ◌<◌, ℕ, suc, Bool};
ghost use Rattle.std.specs.List.{slice_get};
ghost use Rattle.vw_cell.specs.declared.cells.Cell.{Cell as cell};
ghost use Rattle.vw_cell.specs.Places.{FitsAt, IsInWorld};
ghost use Rattle.vox_read.specs.Contents.{colour_at};
ghost use Rattle.history_model.specs.Worlds.{copied, plus};
ghost use Rattle.history_model.specs.Logs.{TintFits};
ghost use Rattle.history_model.specs.Tints.{Tints, ink_of, stamp_tint};
ghost use Rattle.history_model.specs.Planes.{tells, plane_at};
ghost use Rattle.history_model.specs.Parts.{part, part_number, put};
ghost use Rattle.history_model.specs.Making.{IsCellSource, ReadsIn, plane_of, part_edit, stamp_edit};

use crate::acts::TintAct;
use crate::making::{from_corner, moved};
use vox_read::{Models, Voxel};
use vw_cell::{Boxed, Cell};

// What an edit makes of a cell: it is set or not, or as this cell was before.
#[derive(Clone, Copy)]
pub(crate) enum CellSource {
    Fixed(bool),
    Read(Cell),
}

// By how many parts a store of tints makes the act.
pub(crate) fn part_number(act: &TintAct) -> u8
    ensures value { result ≡ part_number act.now }
    ensures few { result ≤ 17 }
{
    match act {
        TintAct::Stamp(_, _) => 17,
        _ => 9,
    }
}

// What part k of the act makes of a cell of the store that keeps the tints of a world of side n.
#[tactic(auto, using(crate::proofs::PartLaws::part_outside, crate::proofs::PartLaws::part_fixed, crate::proofs::PartLaws::part_read))]
pub(crate) fn part(n: u16, models: &Models, act: &TintAct, k: u8, q: Cell) -> CellSource
    requires n { n ≤ 1024 }
    requires fits { TintFits n models.now act.now }
    requires number { k < part_number act.now }
    ensures { IsCellSource (part n (ink_of models.now act.now) act.now k) q result }
{
    let plane = plane_of(act, k);
    let corner = plane_at(n, plane);
    let size = Cell { x: n, y: n, z: n };
    let cube = Boxed { at: corner, size };
    if !cube.has(q) {
        return CellSource::Read(q);
    }
    match plane_edit(models, act, n, k, from_corner(q, corner)) {
        CellSource::Fixed(set) => CellSource::Fixed(set),
        CellSource::Read(p) => CellSource::Read(plus(corner, p)),
    }
}

// The plane in which part k of the act is made.
fn plane_of(act: &TintAct, k: u8) -> u8
    requires { k < part_number act.now }
    ensures value { result ≡ plane_of act.now k }
    ensures plane { result < 9 }
{
    match act {
        TintAct::Stamp(_, _) => (k + 1) / 2,
        _ => k,
    }
}

const ORIGIN: Cell = Cell { x: 0, y: 0, z: 0 };

// The least corner of a plane.
fn plane_at(n: u16, plane: u8) -> Cell
    requires n { n ≤ 1024 }
    requires plane { plane < 9 }
    ensures value { result ≡ plane_at n plane }
    ensures small { (result.x ≤ 3072) × (result.y ≤ 3072) × (result.z ≤ 3072) }
{
    if plane == 0 {
        return ORIGIN;
    }
    bit_at(n, plane - 1)
}

// The corner of the plane of a bit.
fn bit_at(n: u16, bit: u8) -> Cell
    requires n { n ≤ 1024 }
    requires bit { bit < 8 }
    ensures value { result ≡ plane_at n (suc bit) }
    ensures small { (result.x ≤ 3072) × (result.y ≤ 3072) × (result.z ≤ 3072) }
{
    Cell {
        x: 2 * n + n * u16::from(bit % 2),
        y: n * u16::from(bit / 2 % 2),
        z: n * u16::from(bit / 4 % 2),
    }
}

// What part k of the act makes of a cell of its plane, told from the plane's corner.
fn plane_edit(models: &Models, act: &TintAct, n: u16, k: u8, p: Cell) -> CellSource
    requires n { n ≤ 1024 }
    requires fits { TintFits n models.now act.now }
    requires number { k < part_number act.now }
    requires inside { IsInWorld n p }
    ensures made { IsCellSource (part_edit (ink_of models.now act.now) act.now k) p result }
    ensures reads { ReadsIn n result }
{
    match act {
        TintAct::Fill(b, tint) => put(b.has(p), tells(k, *tint), p),
        TintAct::Erase(b) => put(b.has(p), false, p),
        TintAct::Ball(ball, tint) => put(ball.has(p), tells(k, *tint), p),
        TintAct::Carve(ball) => put(ball.has(p), false, p),
        TintAct::Copy(b, to) => copied(*b, *to, n, p),
        TintAct::Stamp(m, at) => stamped(ink(models, *m, *at, p), k, p),
    }
}

// What comes of a cell where the cells of a test are set or cleared.
fn put(has: bool, set: bool, p: Cell) -> CellSource
    ensures made { (test : cell → Bool) → has ≡ test p → IsCellSource (put set test) p result }
    ensures reads { (n : ℕ) → IsInWorld n p → ReadsIn n result }
{
    if has {
        CellSource::Fixed(set)
    } else {
        CellSource::Read(p)
    }
}

// What comes of a cell by a copy.
fn copied(b: Boxed, to: Cell, n: u16, p: Cell) -> CellSource
    requires n { n ≤ 1024 }
    requires fits { FitsAt b.at b.size n }
    requires inside { IsInWorld n p }
    ensures made { IsCellSource (copied b to) p result }
    ensures reads { ReadsIn n result }
{
    let there = Boxed {
        at: to,
        size: b.size,
    };
    if there.has(p) {
        return CellSource::Read(moved(b, to, p));
    }
    CellSource::Read(p)
}

// What part k of a stamp makes of a cell with this ink: even parts set it, and odd ones clear it.
fn stamped(ink: u8, k: u8, p: Cell) -> CellSource
    requires { k < 17 }
    ensures made { (all : Tints) → ink ≡ all p → IsCellSource (stamp_edit all k) p result }
    ensures reads { (n : ℕ) → IsInWorld n p → ReadsIn n result }
{
    if k % 2 == 1 {
        return put(ink != 0, false, p);
    }
    put(tells((k + 1) / 2, ink), true, p)
}

// Whether a tint has a cell set in a plane.
fn tells(plane: u8, tint: u8) -> bool
    requires plane { plane < 9 }
    ensures { result ≡ tells plane tint }
{
    if plane == 0 {
        return tint != 0;
    }
    has_bit(plane - 1, tint)
}

fn has_bit(bit: u8, tint: u8) -> bool
    requires bit { bit < 8 }
    ensures { result ≡ tells (suc bit) tint }
{
    (tint >> bit) & 1 == 1
}

// The tint that a stamp of the model has at the cell.
fn ink(models: &Models, m: u16, at: Cell, p: Cell) -> u8
    ensures { result ≡ stamp_tint (slice_get models.now m) at p }
{
    match models.list.get(usize::from(m)) {
        None => 0,
        Some(model) => {
            let there = Boxed {
                at,
                size: model.size,
            };
            if there.has(p) {
                colour_at(&model.voxels, from_corner(p, at))
            } else {
                0
            }
        }
    }
}

// The colour of the last voxel at the place.
fn colour_at(voxels: &[Voxel], p: Cell) -> u8
    ensures { result ≡ colour_at voxels.now p }
{
    let mut colour = 0;
    for v in voxels {
        if u16::from(v.x) == p.x && u16::from(v.y) == p.y && u16::from(v.z) == p.z {
            colour = v.colour;
        }
    }
    colour
}

// The place that lies so from a corner.
fn plus(corner: Cell, c: Cell) -> Cell
    requires corner { (corner.x ≤ 3072) × (corner.y ≤ 3072) × (corner.z ≤ 3072) }
    requires c { IsInWorld 1024 c }
    ensures { result ≡ plus corner c }
{
    Cell {
        x: corner.x + c.x,
        y: corner.y + c.y,
        z: corner.z + c.z,
    }
}
