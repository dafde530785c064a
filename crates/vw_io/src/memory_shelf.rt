//! A shelf in memory.
ghost use Rattle.std.specs.Prelude.{◌≡◌, ℕ, List, Some, None, option_copied};

use crate::shelves::{ReadRefused, Shelf, WriteRefused};
use std::alloc::Global;
use std::collections::BTreeMap;

/// Files in memory. It tells its files and never fails.
/// Its count of faults is always 0, so `Failed` never comes.
#[derive(Drop)]
pub struct MemoryShelf {
    alloc: Global,
    entries: BTreeMap<String, Vec<u8>>,
}

impl MemoryShelf {
    ghost use Rattle.vw_io.specs.Memory.{files_of};

    /// A shelf with no file. It allocates nothing.
    pub fn new(alloc: Global) -> MemoryShelf
        ensures { (name : List ℕ) → files_of result name ≡ None }
    {
        MemoryShelf {
            alloc,
            entries: BTreeMap::new(alloc),
        }
    }

    /// The bytes of the file of that name.
    pub fn file(&self, name: &str) -> Option<&[u8]>
        ensures { option_copied result ≡ files_of self.now name.now }
    {
        match self.entries.get(name) {
            Some(bytes) => Some(bytes.as_slice()),
            None => None,
        }
    }
}

impl Shelf for MemoryShelf {
    ghost use Rattle.vw_io.specs.Memory.{files_of};

    ghost state = { λ shelf. record { files = Some (files_of shelf); faults = 0 } };

    fn read(&mut self, name: &str, limit: u64, into: &mut Vec<u8>) -> Result<(), ReadRefused> {
        into.clear();
        let Some(bytes) = self.file(name) else {
            return Err(ReadRefused::Missing);
        };
        if bytes.len() as u64 > limit {
            return Err(ReadRefused::TooLong);
        }
        into.extend_from_slice(bytes)?;
        Ok(())
    }

    #[tactic(auto, using(std::proofs::lemmas::Map::Text::text_keys))]
    fn write(&mut self, name: &str, bytes: &[u8]) -> Result<(), WriteRefused> {
        let key = String::from_str(self.alloc, name)?;
        let file = Vec::from_slice(self.alloc, bytes)?;
        self.entries.insert(key, file)?;
        Ok(())
    }
}
