ghost use Rattle.std.specs.Prelude.{◌≡◌};
ghost use Rattle.vox_scene.specs.Faults.{scene_kind_of, place_of_fault};
ghost use Rattle.vox_scene.specs.declared.faults.SceneFault.TheVariants.{Memory};

use std::alloc::{AllocError, AllocFailed};
use thiserror::Error;

/// Why a file whose models can be read gives no scene.
#[derive(Clone, Copy, Debug, PartialEq, Eq, Error)]
pub enum SceneFault {
    /// The fields of the node in the chunk at this position don't fit.
    #[error("a node shorter than its fields at {0}")]
    ShortNode(u32),
    /// The node in the chunk at this position has the id of an earlier one.
    #[error("a second node of one id at {0}")]
    TwoNodes(u32),
    #[error("a rotation that is none at {0}")]
    BadRotation(u32),
    #[error("a translation that is none at {0}")]
    BadTranslation(u32),
    /// No node has this id.
    #[error("no node {0}")]
    NoNode(u32),
    /// The node of this id is the 65th on its path.
    #[error("node {0} is too deep")]
    TooDeep(u32),
    /// The node of this id shows a model that the file hasn't.
    #[error("node {0} shows no model")]
    NoModel(u32),
    /// There are too many visits or placements when the node of this id is visited.
    #[error("too many nodes or placements at node {0}")]
    TooMany(u32),
    #[error("the scene is too large")]
    TooLarge,
    #[error("out of memory")]
    Memory,
}

impl SceneFault {
    /// The number of the refusal in printed lines.
    pub fn kind(&self) -> u8
        ensures { result ≡ scene_kind_of self.now }
    {
        match self {
            SceneFault::ShortNode(_) => 1,
            SceneFault::TwoNodes(_) => 2,
            SceneFault::BadRotation(_) => 3,
            SceneFault::BadTranslation(_) => 4,
            SceneFault::NoNode(_) => 5,
            SceneFault::TooDeep(_) => 6,
            SceneFault::NoModel(_) => 7,
            SceneFault::TooMany(_) => 8,
            SceneFault::TooLarge => 9,
            SceneFault::Memory => 10,
        }
    }

    /// The position or the node's id that the refusal names, 0 where it names none.
    pub fn at(&self) -> u32
        ensures { result ≡ place_of_fault self.now }
    {
        match self {
            SceneFault::TooLarge | SceneFault::Memory => 0,
            SceneFault::ShortNode(at)
            | SceneFault::TwoNodes(at)
            | SceneFault::BadRotation(at)
            | SceneFault::BadTranslation(at)
            | SceneFault::NoNode(at)
            | SceneFault::TooDeep(at)
            | SceneFault::NoModel(at)
            | SceneFault::TooMany(at) => *at,
        }
    }
}

impl From<AllocError> for SceneFault {
    ghost from_gives = { λ _ e. e ≡ Memory };

    fn from(_e: AllocError) -> SceneFault {
        SceneFault::Memory
    }
}

impl<T: Drop> From<AllocFailed<T>> for SceneFault {
    ghost from_gives = { λ _ e. e ≡ Memory };

    fn from(_e: AllocFailed<T>) -> SceneFault {
        SceneFault::Memory
    }
}
