use crate::voxels::Voxel;
use vw_cell::Cell;

/// A model: its size, from 1 to 256 on each axis, and its voxels in the order of the file.
///
/// Contracts see the size and the list of the voxels. Where several voxels stand at one place the
/// last of them decides.
#[derive(Drop)]
pub struct Model {
    pub size: Cell,
    pub voxels: Vec<Voxel>,
}

impl std::marker::Model for Model {
    ghost use Rattle.vox_read.specs.Contents.{Content};

    ghost Value = { Content };

    ghost view = { λ m. record { size = m.size; voxels = m.voxels.items } };
}

/// The models of a file, in its order. Contracts see the list.
#[derive(Drop)]
pub struct Models {
    pub list: Vec<Model>,
}

impl std::marker::Model for Models {
    ghost use Rattle.std.specs.Prelude.{List};
    ghost use Rattle.vox_read.specs.Contents.{Content};

    ghost Value = { List Content };

    ghost view = { λ m. m.list.items };
}
