//! The files of the system as a shelf.
ghost use Rattle.std.specs.Prelude.{◌≡◌, ◌≤◌, [], None, length, OnOk, OnErr};
ghost use Rattle.vw_io.specs.Faulty.{CountsRead, CountsWrite};
ghost use Rattle.vw_io.specs.Read.{ReadSpec, ReadCause};
ghost use Rattle.vw_io.specs.System.{no_files};
ghost use Rattle.vw_io.specs.Write.{WriteSpec, WriteCause};

use crate::faults::{answer_read, count_write};
use crate::files::{read_file, write_file};
use crate::shelves::{ReadRefused, Shelf, WriteRefused};
use std::rt::Files;

/// The files of the system, by path. It tells no content: what the system keeps and gives is
/// trusted.
///
/// Each error of the system is a fault, but for a name that a read doesn't find and want of memory.
/// So a folder in place of a file is a fault, and a write whose folder isn't found. Want of memory
/// after a write has emptied its file is a fault too, since `Memory` says that no file has changed.
#[derive(Drop)]
pub struct FileShelf<R: Files + Drop> {
    rt: R,
    faults: u64,
}

impl<R: Files + Drop> FileShelf<R> {
    /// A shelf that has counted no fault. It opens nothing.
    pub fn new(rt: R) -> FileShelf<R>
        ensures untold { (⟦<FileShelf<R> as Shelf>⟧.state result).files ≡ None }
        ensures no_fault { (⟦<FileShelf<R> as Shelf>⟧.state result).faults ≡ 0 }
    {
        FileShelf { rt, faults: 0 }
    }

    #[cfg(test)]
    pub(crate) fn faults(&self) -> u64 {
        self.faults
    }
}

impl<R: Files + Drop> Shelf for FileShelf<R> {
    ghost state = { λ shelf. record { files = None; faults = shelf.faults } };

    fn read(&mut self, name: &str, limit: u64, into: &mut Vec<u8>) -> Result<(), ReadRefused>
        ensures told { ReadSpec no_files name.now limit result into.new.items }
        ensures within { OnOk result (length into.new.items ≤ limit) }
        ensures empty { OnErr result (into.new.items ≡ []) }
        ensures unchanged { no_files ≡ no_files }
        ensures cause { ReadCause result self.old.faults self.new.faults }
        ensures never_falls { self.old.faults ≤ self.new.faults }

        ensures counts { CountsRead result self.old.faults self.new.faults }
    {
        match read_file(&self.rt, name, limit, into) {
            Ok(()) => Ok(()),
            Err(refused) => {
                into.clear();
                Err(answer_read(&mut self.faults, refused))
            }
        }
    }

    fn write(&mut self, name: &str, bytes: &[u8]) -> Result<(), WriteRefused>
        ensures told { WriteSpec no_files no_files name.now bytes.now result }
        ensures cause { WriteCause result self.old.faults self.new.faults }
        ensures never_falls { self.old.faults ≤ self.new.faults }

        ensures counts { CountsWrite result self.old.faults self.new.faults }
    {
        match write_file(&self.rt, name, bytes) {
            Ok(()) => Ok(()),
            Err(refused) => {
                count_write(&mut self.faults, refused);
                Err(refused)
            }
        }
    }
}
