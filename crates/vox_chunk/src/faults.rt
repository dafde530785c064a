ghost use Rattle.std.specs.Prelude.{◌≡◌};
ghost use Rattle.vox_chunk.specs.Faults.{kind_of, position_of};
ghost use Rattle.vox_chunk.specs.declared.faults.VoxFault.TheVariants.{Memory};

use std::alloc::{AllocError, AllocFailed};
use thiserror::Error;

/// Why a file gives no models. The number of most is the byte position of the chunk's id.
#[derive(Clone, Copy, Debug, PartialEq, Eq, Error)]
pub enum VoxFault {
    #[error("not a VOX file")]
    NotVox,
    /// A version other than 150 and 200, which is the number.
    #[error("version {0} is not read")]
    Version(u32),
    #[error("no MAIN chunk")]
    NoMain,
    /// The file, or MAIN, ends inside the chunk at this position.
    #[error("cut off in the chunk at {0}")]
    Truncated(u32),
    #[error("a SIZE of less than 12 bytes at {0}")]
    ShortSize(u32),
    #[error("a size outside 1 to 256 at {0}")]
    SizeRange(u32),
    #[error("an XYZI without a SIZE at {0}")]
    XyziWithoutSize(u32),
    #[error("an XYZI shorter than its voxels at {0}")]
    ShortXyzi(u32),
    #[error("a voxel outside its model at {0}")]
    VoxelOutside(u32),
    #[error("more than 1,024 models at {0}")]
    TooManyModels(u32),
    #[error("out of memory")]
    Memory,
}

impl VoxFault {
    /// The number of the refusal in printed lines.
    pub fn kind(&self) -> u8
        ensures { result ≡ kind_of self.now }
    {
        match self {
            VoxFault::NotVox => 1,
            VoxFault::Version(_) => 2,
            VoxFault::NoMain => 3,
            VoxFault::Truncated(_) => 4,
            VoxFault::ShortSize(_) => 5,
            VoxFault::SizeRange(_) => 6,
            VoxFault::XyziWithoutSize(_) => 7,
            VoxFault::ShortXyzi(_) => 8,
            VoxFault::VoxelOutside(_) => 9,
            VoxFault::TooManyModels(_) => 10,
            VoxFault::Memory => 11,
        }
    }

    /// The byte position that the refusal names, 0 where it names none.
    pub fn at(&self) -> u32
        ensures { result ≡ position_of self.now }
    {
        match self {
            VoxFault::NotVox | VoxFault::Memory => 0,
            VoxFault::Version(_) => 4,
            VoxFault::NoMain => 8,
            VoxFault::Truncated(at)
            | VoxFault::ShortSize(at)
            | VoxFault::SizeRange(at)
            | VoxFault::XyziWithoutSize(at)
            | VoxFault::ShortXyzi(at)
            | VoxFault::VoxelOutside(at)
            | VoxFault::TooManyModels(at) => *at,
        }
    }
}

impl From<AllocError> for VoxFault {
    ghost from_gives = { λ _ e. e ≡ Memory };

    fn from(_e: AllocError) -> VoxFault {
        VoxFault::Memory
    }
}

impl<T: Drop> From<AllocFailed<T>> for VoxFault {
    ghost from_gives = { λ _ e. e ≡ Memory };

    fn from(_e: AllocFailed<T>) -> VoxFault {
        VoxFault::Memory
    }
}
