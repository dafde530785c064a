//! Models of MagicaVoxel's VOX files, and the number of their cells.
//!
//! It reads bytes and keeps voxels; the frame of the chunks is `vox_chunk`'s. What a file says is
//! in `specs/Files.antt`, and which places of a model are cells in `specs/Contents.antt`.
#![tactic(auto)]

mod collecting;
mod counting;
mod fields;
mod models;
mod reading;
mod voxels;

pub use collecting::cells;
pub use counting::cell_count;
pub use models::{Model, Models};
pub use reading::{files_have_a_reading, files_have_one_reading, read_models};
pub use vox_chunk::VoxFault;
pub use voxels::Voxel;
