//! A shelf in memory whose calls fail as they are told to.
ghost use Rattle.std.specs.Prelude.{◌≡◌, ◌≤◌, [], Some, Option, length, OnOk, OnErr};
ghost use Rattle.vw_io.specs.Faulty.{next_call, passing, FailsRead, FailsWrite, CountsRead, CountsWrite};
ghost use Rattle.vw_io.specs.Memory.{files_of};
ghost use Rattle.vw_io.specs.Read.{ReadSpec, ReadCause};
ghost use Rattle.vw_io.specs.Write.{WriteSpec, WriteCause};

use crate::faults::{answer_read, count_write};
use crate::memory_shelf::MemoryShelf;
use crate::shelves::{ReadRefused, Shelf, WriteRefused};

/// Files in memory, with a list of the calls that fail: pairs of a call's number and of how many
/// bytes go through at it. Calls are numbered from 1, over reads and writes together. It tells its
/// files.
///
/// A read at a call that fails gives nothing. A write leaves just so many first bytes, or all of
/// fewer.
#[derive(Drop)]
pub struct FaultyShelf {
    inner: MemoryShelf,
    fails: Vec<(u32, u32)>,
    calls: u64,
    faults: u64,
}

impl FaultyShelf {
    /// A shelf with these files that has had no call. Where a number stands twice, its first pair
    /// counts.
    pub fn new(files: MemoryShelf, fails: Vec<(u32, u32)>) -> FaultyShelf
        ensures files { files_of result.inner ≡ files_of files }
        ensures fails { result.fails.items ≡ fails.items }
        ensures no_call { result.calls ≡ 0 }
        ensures no_fault { result.faults ≡ 0 }
    {
        FaultyShelf {
            inner: files,
            fails,
            calls: 0,
            faults: 0,
        }
    }

    /// The files.
    pub fn files(&self) -> &MemoryShelf
        ensures { files_of result.now ≡ files_of self.now.inner }
    {
        &self.inner
    }
}

impl Shelf for FaultyShelf {
    ghost state = { λ shelf. record
        { files = Some (files_of shelf.inner); faults = shelf.faults } };

    fn read(&mut self, name: &str, limit: u64, into: &mut Vec<u8>) -> Result<(), ReadRefused>
        ensures told { ReadSpec
            (Some (files_of self.old.inner)) name.now limit result into.new.items }
        ensures within { OnOk result (length into.new.items ≤ limit) }
        ensures empty { OnErr result (into.new.items ≡ []) }
        ensures unchanged { Some (files_of self.new.inner) ≡ Some (files_of self.old.inner) }
        ensures cause { ReadCause result self.old.faults self.new.faults }
        ensures never_falls { self.old.faults ≤ self.new.faults }

        ensures fails { FailsRead (passing self.old.fails.items (next_call self.old.calls))
            self.old.faults result }
        ensures counts { CountsRead result self.old.faults self.new.faults }
        ensures counted { self.new.calls ≡ next_call self.old.calls }
        ensures same_fails { self.new.fails.items ≡ self.old.fails.items }
    {
        self.calls = self.calls.saturating_add(1);
        match passing(self.fails.as_slice(), self.calls) {
            None => match self.inner.read(name, limit, into) {
                Ok(()) => Ok(()),
                Err(refused) => Err(answer_read(&mut self.faults, refused)),
            },
            Some(_) => {
                into.clear();
                Err(answer_read(&mut self.faults, ReadRefused::Failed))
            }
        }
    }

    fn write(&mut self, name: &str, bytes: &[u8]) -> Result<(), WriteRefused>
        ensures told { WriteSpec (Some (files_of self.old.inner)) (Some (files_of self.new.inner))
            name.now bytes.now result }
        ensures cause { WriteCause result self.old.faults self.new.faults }
        ensures never_falls { self.old.faults ≤ self.new.faults }

        ensures fails { FailsWrite (passing self.old.fails.items (next_call self.old.calls))
            (files_of self.old.inner) (files_of self.new.inner) name.now bytes.now result }
        ensures counts { CountsWrite result self.old.faults self.new.faults }
        ensures counted { self.new.calls ≡ next_call self.old.calls }
        ensures same_fails { self.new.fails.items ≡ self.old.fails.items }
    {
        self.calls = self.calls.saturating_add(1);
        match passing(self.fails.as_slice(), self.calls) {
            None => self.inner.write(name, bytes),
            Some(passes) => {
                let passed = (passes as usize).min(bytes.len());
                self.inner.write(name, &bytes[..passed])?;
                count_write(&mut self.faults, WriteRefused::Failed);
                Err(WriteRefused::Failed)
            }
        }
    }
}

/// How many bytes go through at the call of this number, where it fails.
pub(crate) fn passing(fails: &[(u32, u32)], call: u64) -> Option<u32>
    ensures { result ≡ passing fails.now call }
{
    match fails.iter().find(|fail| u64::from(fail.0) == call) {
        Some(fail) => Some(fail.1),
        None => None,
    }
}
