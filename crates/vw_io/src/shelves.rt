//! Files by name, as a trait.
ghost use Rattle.std.specs.Prelude.{◌≡◌, ℕ, ◌≤◌, [], length, Option, OnOk, OnErr};

use std::alloc::{AllocError, AllocFailed};
use thiserror::Error;

/// Why a read gave no bytes.
#[derive(Clone, Copy, Debug, PartialEq, Eq, Error)]
pub enum ReadRefused {
    /// The shelf has no file of that name.
    #[error("no such file")]
    Missing,
    /// The file has more bytes than the limit.
    #[error("the file is too long")]
    TooLong,
    /// The shelf itself failed, and its count of faults rose.
    #[error("the file could not be read")]
    Failed,
    #[error("out of memory")]
    Memory,
}

/// Why a write did not put all of its bytes in place.
#[derive(Clone, Copy, Debug, PartialEq, Eq, Error)]
pub enum WriteRefused {
    /// The shelf itself failed, and its count of faults rose.
    #[error("the file could not be written")]
    Failed,
    #[error("out of memory")]
    Memory,
}

impl From<AllocError> for ReadRefused {
    ghost use Rattle.vw_io.specs.declared.shelves.ReadRefused.TheVariants.{Memory};

    ghost from_gives = { λ _ e. e ≡ Memory };

    fn from(_: AllocError) -> ReadRefused {
        ReadRefused::Memory
    }
}

impl<T: Drop> From<AllocFailed<T>> for ReadRefused {
    ghost use Rattle.vw_io.specs.declared.shelves.ReadRefused.TheVariants.{Memory};

    ghost from_gives = { λ _ e. e ≡ Memory };

    fn from(_: AllocFailed<T>) -> ReadRefused {
        ReadRefused::Memory
    }
}

impl From<AllocError> for WriteRefused {
    ghost use Rattle.vw_io.specs.declared.shelves.WriteRefused.TheVariants.{Memory};

    ghost from_gives = { λ _ e. e ≡ Memory };

    fn from(_: AllocError) -> WriteRefused {
        WriteRefused::Memory
    }
}

impl<T: Drop> From<AllocFailed<T>> for WriteRefused {
    ghost use Rattle.vw_io.specs.declared.shelves.WriteRefused.TheVariants.{Memory};

    ghost from_gives = { λ _ e. e ≡ Memory };

    fn from(_: AllocFailed<T>) -> WriteRefused {
        WriteRefused::Memory
    }
}

/// Files by name. `Memory` may come at any call, and each other answer has its cause in the files
/// or in a fault of the shelf.
///
/// The count of faults never falls. It rises where a call answers `Failed`, and doesn't where a
/// read answers `Missing` or `TooLong`; an `Ok` and `Memory` say nothing of it. Where it already
/// stands at the last value of a `u64`, `Missing` and `TooLong` never come: such a call answers
/// `Failed`.
pub trait Shelf {
    ghost use Rattle.vw_io.specs.Outside.{ShelfState};
    ghost use Rattle.vw_io.specs.Read.{ReadSpec, ReadCause};
    ghost use Rattle.vw_io.specs.Write.{WriteSpec, WriteCause};

    /// The files, where the shelf tells them, and how often it has failed.
    ghost state: { Self → ShelfState };

    /// Reads a whole file, of at most `limit` bytes, in place of what `into` had.
    fn read(&mut self, name: &str, limit: u64, into: &mut Vec<u8>) -> Result<(), ReadRefused>
        ensures told { ReadSpec (state self.old).files name.now limit result into.new.items }
        ensures within { OnOk result (length into.new.items ≤ limit) }
        ensures empty { OnErr result (into.new.items ≡ []) }
        ensures unchanged { (state self.new).files ≡ (state self.old).files }

        ensures cause { ReadCause result (state self.old).faults (state self.new).faults }
        ensures never_falls { (state self.old).faults ≤ (state self.new).faults };

    /// Makes `bytes` the whole file of that name. After `Failed` the file may hold some first bytes
    /// of these, or what it held.
    fn write(&mut self, name: &str, bytes: &[u8]) -> Result<(), WriteRefused>
        ensures told { WriteSpec (state self.old).files
            (state self.new).files name.now bytes.now result }

        ensures cause { WriteCause result (state self.old).faults (state self.new).faults }
        ensures never_falls { (state self.old).faults ≤ (state self.new).faults };
}
