//! A place to put bytes, as a trait.
ghost use Rattle.std.specs.Prelude.{◌≡◌, ℕ, ◌≤◌, List, Option};

use std::alloc::AllocError;
use thiserror::Error;

/// Why bytes were not all put.
#[derive(Clone, Copy, Debug, PartialEq, Eq, Error)]
pub enum PutRefused {
    /// The sink itself failed, and its count of faults rose.
    #[error("the output could not be written")]
    Failed,
    #[error("out of memory")]
    Memory,
}

impl From<AllocError> for PutRefused {
    ghost use Rattle.vw_io.specs.declared.sinks.PutRefused.TheVariants.{Memory};

    ghost from_gives = { λ _ e. e ≡ Memory };

    fn from(_: AllocError) -> PutRefused {
        PutRefused::Memory
    }
}

/// A place that takes bytes one after another. `Memory` may come at any call. The count of faults
/// never falls, and rises where a call answers `Failed`; an `Ok` and `Memory` say nothing of it.
pub trait Sink {
    ghost use Rattle.vw_io.specs.Outside.{SinkState};
    ghost use Rattle.vw_io.specs.Put.{PutSpec, PutCause};

    /// The bytes put so far, where the sink tells them, and how often it has failed.
    ghost state: { Self → SinkState };

    /// Appends `bytes`. After `Failed` only some first bytes of these may have gone out.
    fn put(&mut self, bytes: &[u8]) -> Result<(), PutRefused>
        ensures told { PutSpec (state self.old).told (state self.new).told bytes.now result }

        ensures cause { PutCause result (state self.old).faults (state self.new).faults }
        ensures never_falls { (state self.old).faults ≤ (state self.new).faults };
}
