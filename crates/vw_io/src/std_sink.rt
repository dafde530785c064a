//! Standard output as a sink.
ghost use Rattle.std.specs.Prelude.{◌≡◌, ◌≤◌, None};
ghost use Rattle.vw_io.specs.Faulty.{CountsPut};
ghost use Rattle.vw_io.specs.Put.{PutSpec, PutCause};
ghost use Rattle.vw_io.specs.System.{no_bytes};

use crate::faults::count_put;
use crate::sinks::{PutRefused, Sink};
use crate::writers::write_whole;
use std::io;
use std::io::Print;

/// Standard output, unbuffered. It tells no bytes: where they go is the system's, and trusted.
///
/// Each error of the system but want of memory is a fault, and so is a write that takes nothing.
/// Want of memory after some bytes have gone out is a fault too, since `Memory` says that none has.
#[derive(Drop)]
pub struct StdSink<R: Print + Drop> {
    rt: R,
    faults: u64,
}

impl<R: Print + Drop> StdSink<R> {
    /// A sink that has counted no fault. It writes nothing.
    pub fn new(rt: R) -> StdSink<R>
        ensures untold { (⟦<StdSink<R> as Sink>⟧.state result).told ≡ None }
        ensures no_fault { (⟦<StdSink<R> as Sink>⟧.state result).faults ≡ 0 }
    {
        StdSink { rt, faults: 0 }
    }

    #[cfg(test)]
    pub(crate) fn faults(&self) -> u64 {
        self.faults
    }
}

impl<R: Print + Drop> Sink for StdSink<R> {
    ghost state = { λ sink. record { told = None; faults = sink.faults } };

    fn put(&mut self, bytes: &[u8]) -> Result<(), PutRefused>
        ensures told { PutSpec no_bytes no_bytes bytes.now result }
        ensures cause { PutCause result self.old.faults self.new.faults }
        ensures never_falls { self.old.faults ≤ self.new.faults }

        ensures counts { CountsPut result self.old.faults self.new.faults }
    {
        match write_whole(&mut io::writer(&self.rt), bytes) {
            Ok(()) => Ok(()),
            Err(refused) => {
                count_put(&mut self.faults, refused);
                Err(refused)
            }
        }
    }
}
