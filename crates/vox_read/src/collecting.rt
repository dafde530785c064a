ghost use Rattle.std.specs.Prelude.{IfOk};
ghost use Rattle.vox_read.specs.Contents.{IsModel};
ghost use Rattle.vox_read.specs.Cells.{AreCells};

use crate::counting::{index, mark_cells};
use crate::models::Model;
use crate::voxels::Voxel;
use std::alloc::Global;
use vw_cell::Memory;

/// The model's cells, each once, in the order in which the list of voxels first names them.
///
/// Each is told by its first voxel of the list, whose colour need not be the one that the cell has
/// in the end. It goes over the voxels twice, with one bit for each place of the model's size, and
/// takes room for exactly as many voxels as there are cells.
pub fn cells(alloc: Global, model: &Model) -> Result<Vec<Voxel>, Memory>
    requires { IsModel model.now }
    ensures { IfOk result (λ cells. AreCells model.now cells.items) }
{
    let size = model.size;
    let mut marked = mark_cells(alloc, model)?;
    let mut cells = Vec::with_capacity(alloc, marked.cells as usize)?;
    for voxel in &model.voxels {
        if marked.bits.put(index(size, *voxel), false) {
            cells.push(*voxel)?;
        }
    }
    Ok(cells)
}
