ghost use Rattle.std.specs.Prelude.{IfSome};
ghost use Rattle.vox_read.specs.Contents.{AreModels};

use edit_stamp::Stencil;
use std::alloc::{AllocError, Global};
use vox_read::{Models, read_models};

/// A model as a file tells it: its size, and voxels of a place and a colour each.
#[derive(Drop)]
pub struct Drawing {
    pub size: [u8; 3],
    pub voxels: Vec<[u8; 4]>,
}

impl Drawing {
    /// The stencil of the model, read from its file. `None` where a voxel stands outside, or memory
    /// is short.
    pub fn stencil(&self, alloc: Global) -> Option<Stencil> {
        let bytes = self.file(alloc).ok()?;
        let models = models(alloc, &bytes)?;
        first(alloc, &models)
    }

    // A file of the model alone.
    fn file(&self, alloc: Global) -> Result<Vec<u8>, AllocError> {
        let mut bytes: Vec<u8> = Vec::new(alloc);
        let number = (self.voxels.len() % 65536) as u32;
        let content = 4 * number + 4;
        bytes.extend_from_slice(b"VOX \x96\0\0\0MAIN\0\0\0\0")?;
        bytes.extend_from_slice(&(content + 36).to_le_bytes())?;
        bytes.extend_from_slice(b"SIZE\x0c\0\0\0\0\0\0\0")?;
        let [x, y, z] = self.size;
        bytes.extend_from_slice(&[x, 0, 0, 0, y, 0, 0, 0, z, 0, 0, 0])?;
        bytes.extend_from_slice(b"XYZI")?;
        bytes.extend_from_slice(&content.to_le_bytes())?;
        bytes.extend_from_slice(b"\0\0\0\0")?;
        bytes.extend_from_slice(&number.to_le_bytes())?;
        for voxel in &self.voxels {
            bytes.extend_from_slice(voxel)?;
        }
        Ok(bytes)
    }
}

fn models(alloc: Global, bytes: &[u8]) -> Option<Models>
    ensures { IfSome result AreModels }
{
    if bytes.len() > 1 << 28 {
        return None;
    }
    match read_models(alloc, bytes) {
        Ok(models) => Some(models),
        Err(_) => None,
    }
}

fn first(alloc: Global, models: &Models) -> Option<Stencil>
    requires { AreModels models.now }
{
    match models.list.first() {
        None => None,
        Some(model) => match Stencil::new(alloc, model) {
            Ok(stencil) => Some(stencil),
            Err(_) => None,
        },
    }
}
