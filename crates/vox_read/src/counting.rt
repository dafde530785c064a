ghost use Rattle.std.specs.Prelude.{◌≡◌, ◌+◌, ◌*◌, ◌^◌, ◌<◌, ◌≤◌, IfOk};
ghost use Rattle.vw_cell.specs.Sums.{one_if};
ghost use Rattle.vox_read.specs.Contents.{IsModel, IsSize, IsInsideModel, cells_in_size};
ghost use Rattle.vox_read.specs.Marks.{Marks};
ghost use Rattle.vox_read.specs.Places.{index_of, voxel_place, volume_of};

use crate::models::Model;
use crate::voxels::Voxel;
use std::alloc::Global;
use vw_cell::{BitSet, Cell, Memory};

/// The number of places of the model whose last voxel has a colour other than 0.
///
/// It goes over the voxels once, with one bit for each place of the model's size.
pub fn cell_count(alloc: Global, model: &Model) -> Result<u32, Memory>
    requires { IsModel model.now }
    ensures { IfOk result (λ n. n ≡ cells_in_size model.now) }
{
    let marked = mark_cells(alloc, model)?;
    Ok(marked.cells)
}

/// The bits of a model's places, set at its cells, and the number of the set ones.
#[derive(Drop)]
pub(crate) struct Marked {
    pub(crate) bits: BitSet,
    pub(crate) cells: u32,
}

// Marks the cells of the model, in one pass over its voxels.
pub(crate) fn mark_cells(alloc: Global, model: &Model) -> Result<Marked, Memory>
    requires { IsModel model.now }
    ensures { IfOk result (λ m. Marks model.now.size model.now.voxels m.bits m.cells) }
{
    let size = model.size;
    let mut bits = BitSet::new(alloc, volume(size))?;
    let mut cells: u32 = 0;
    for voxel in &model.voxels {
        let now = voxel.colour != 0;
        let was = bits.put(index(size, *voxel), now);
        cells = moved(cells, was, now);
    }
    Ok(Marked { bits, cells })
}

// The number of places below a size.
#[tactic(auto, using(crate::proofs::Bounds::volume_small))]
fn volume(size: Cell) -> usize
    requires { IsSize size }
    ensures value { result ≡ volume_of size }
    ensures bound { result ≤ 2 ^ 24 }
{
    usize::from(size.x) * (usize::from(size.y) * usize::from(size.z))
}

// The number of the voxel's place among those below the size.
#[tactic(auto, using(crate::proofs::Bounds::index_fits))]
pub(crate) fn index(size: Cell, v: Voxel) -> usize
    requires size { IsSize size }
    requires inside { IsInsideModel size v }
    ensures { result ≡ index_of size (voxel_place v) }
{
    (usize::from(v.z) * usize::from(size.y) + usize::from(v.y)) * usize::from(size.x)
        + usize::from(v.x)
}

// The count after one place's bit went from `was` to `now`.
fn moved(cells: u32, was: bool, now: bool) -> u32
    requires counted { one_if was ≤ cells }
    requires room { cells + 1 < 2 ^ 32 }
    ensures { result + one_if was ≡ cells + one_if now }
{
    match (was, now) {
        (false, true) => cells + 1,
        (true, false) => cells - 1,
        _ => cells,
    }
}
