ghost use Rattle.std.specs.Prelude.{◌≡◌, ◌<◌, ◌^◌, All, IfOk};
ghost use Rattle.std.specs.Int.{bit_at};
ghost use Rattle.vox_read.specs.Contents.{IsModel};
ghost use Rattle.edit_stamp.specs.Drawings.{bit_model, with_bit};

use std::alloc::Global;
use vox_read::{Model, Voxel};
use vw_cell::Memory;

// The model with one bit of each colour in its place.
pub(crate) fn bit_model(alloc: Global, model: &Model, bit: u8) -> Result<Model, Memory>
    requires model { IsModel model.now }
    requires bit { bit < 8 }
    ensures is { IfOk result (λ m. m ≡ bit_model bit model.now) }
    ensures small { IfOk result (λ m. All (λ v. v.colour < 2 ^ 8) model.now.voxels) }
{
    let mut voxels = Vec::with_capacity(alloc, model.voxels.len())?;
    for voxel in &model.voxels {
        voxels.push(with_bit(*voxel, bit))?;
    }
    Ok(Model {
        size: model.size,
        voxels,
    })
}

fn with_bit(voxel: Voxel, bit: u8) -> Voxel
    requires { bit < 8 }
    ensures is { result ≡ with_bit bit voxel }
    ensures small { voxel.colour < 2 ^ 8 }
{
    Voxel {
        x: voxel.x,
        y: voxel.y,
        z: voxel.z,
        colour: (voxel.colour >> bit) & 1,
    }
}
