//! Some cells of a box, and the tints that they have.
ghost use Rattle.std.specs.Prelude.{All, IfOk};
ghost use Rattle.vox_read.specs.Contents.{IsInsideModel};

use std::alloc::Global;
use std::test::Fail;
use vox_read::Voxel;
use vw_cell::Cell;

/// A cell by its place from the corner of its box, and its tint.
pub type Tinted = [u8; 4];

/// The voxels of those cells that lie in a box of this size, none of which has its tint as its
/// colour.
pub fn voxels_of(alloc: Global, size: Cell, cells: &[Tinted]) -> Result<Vec<Voxel>, Fail>
    ensures { IfOk result (λ voxels. All (IsInsideModel size) voxels.items) }
{
    let mut voxels = Vec::new(alloc);
    for &[x, y, z, tint] in cells {
        if u16::from(x) < size.x && u16::from(y) < size.y && u16::from(z) < size.z {
            let colour = tint ^ 1;
            voxels.push(Voxel { x, y, z, colour })?;
        }
    }
    Ok(voxels)
}

/// Refuses other tints than those of the cells, and tells the first one.
pub fn are_tints(tints: &[u8], cells: &[Tinted]) -> Result<(), Fail> {
    if tints.len() != cells.len() {
        return Err(Fail::new(format_args!("{} tints, wanted are {}", tints.len(), cells.len())));
    }
    for i in 0..tints.len() {
        let tint = tints[i];
        let cell = cells[i];
        if tint != cell[3] {
            return Err(Fail::new(format_args!("cell {cell:?}: tint {tint}")));
        }
    }
    Ok(())
}
