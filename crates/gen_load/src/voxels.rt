ghost use Rattle.std.specs.Prelude.{◌≡◌, ◌*◌, All, length, IfOk, OnOk};
ghost use Rattle.vox_read.specs.Contents.{IsInsideModel};
ghost use Rattle.gen_load.specs.Draws.{state_after};
ghost use Rattle.gen_load.specs.Loads.{voxel_from, voxels_from};

use crate::generator::Generator;
use std::alloc::Global;
use vox_read::Voxel;
use vw_cell::{Cell, Memory};

/// The size of a load's model.
pub(crate) const SIZE: Cell = Cell {
    x: 32,
    y: 32,
    z: 32,
};

/// The next so many voxels.
pub(crate) fn next_voxels(
    alloc: Global,
    numbers: &mut Generator,
    count: u16,
) -> Result<Vec<Voxel>, Memory>
    ensures voxels { IfOk result (λ voxels. voxels.items ≡ voxels_from numbers.old count) }
    ensures len { IfOk result (λ voxels. length voxels.items ≡ count) }
    ensures inside { IfOk result (λ voxels. All (IsInsideModel SIZE) voxels.items) }
    ensures state { OnOk result (numbers.new ≡ state_after numbers.old (4 * count)) }
{
    let mut voxels = Vec::with_capacity(alloc, usize::from(count))?;
    for _ in 0..count {
        voxels.push(next_voxel(numbers))?;
    }
    Ok(voxels)
}

#[tactic(auto, unfolding(crate::specs::Draws::state_after))]
fn next_voxel(numbers: &mut Generator) -> Voxel
    ensures voxel { result ≡ voxel_from numbers.old }
    ensures inside { IsInsideModel SIZE result }
    ensures state { numbers.new ≡ state_after numbers.old 4 }
{
    let x = numbers.below(32);
    let y = numbers.below(32);
    let z = numbers.below(32);
    let colour = 1 + numbers.below(255);
    Voxel {
        x: x as u8,
        y: y as u8,
        z: z as u8,
        colour: colour as u8,
    }
}
