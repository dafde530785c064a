//! Facts of a world that stands open, and the file of its versions.
ghost use Rattle.std.specs.Prelude.{◌≡◌, IfOk};
ghost use Rattle.store_run.specs.Taken.{IsFileOfHeld};

use crate::open_worlds::OpenWorld;
use std::alloc::Global;
use vw_cell::Memory;

impl OpenWorld {
    /// How many slots a bucket of the store has.
    pub fn cap(&self) -> u16
        ensures { result ≡ self.now.plan.cap }
    {
        self.versions.store.plan().cap()
    }

    /// The file of the versions that are kept. Their roots leave their places for the time, and
    /// come back.
    pub fn dag(&mut self, alloc: Global) -> Result<Vec<u8>, Memory>
        ensures file { IfOk result
            (λ file. IsFileOfHeld self.old.models self.old.log file.items) }
        ensures same { self.new ≡ self.old }
    {
        self.versions.dag(alloc)
    }
}
