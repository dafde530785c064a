//! A sink in memory whose puts fail as they are told to.
ghost use Rattle.std.specs.Prelude.{◌≡◌, ◌≤◌, [], Some, Option};
ghost use Rattle.vw_io.specs.Faulty.{next_call, passing, FailsPut, CountsPut};
ghost use Rattle.vw_io.specs.Put.{PutSpec, PutCause};

use crate::faults::count_put;
use crate::faulty_shelf::passing;
use crate::sinks::{PutRefused, Sink};
use std::alloc::Global;

/// The bytes put, in memory, with a list of the puts that fail: pairs of a put's number, from 1,
/// and of how many bytes go through at it. It tells its bytes.
#[derive(Drop)]
pub struct FaultySink {
    sent: Vec<u8>,
    fails: Vec<(u32, u32)>,
    calls: u64,
    faults: u64,
}

impl FaultySink {
    /// A sink with no byte that has had no put. Where a number stands twice, its first pair counts.
    pub fn new(alloc: Global, fails: Vec<(u32, u32)>) -> FaultySink
        ensures empty { result.sent.items ≡ [] }
        ensures fails { result.fails.items ≡ fails.items }
        ensures no_call { result.calls ≡ 0 }
        ensures no_fault { result.faults ≡ 0 }
    {
        FaultySink {
            sent: Vec::new(alloc),
            fails,
            calls: 0,
            faults: 0,
        }
    }

    /// The bytes that went through so far.
    pub fn bytes(&self) -> &[u8]
        ensures { result.now ≡ self.now.sent.items }
    {
        self.sent.as_slice()
    }
}

impl Sink for FaultySink {
    ghost state = { λ sink. record { told = Some sink.sent.items; faults = sink.faults } };

    fn put(&mut self, bytes: &[u8]) -> Result<(), PutRefused>
        ensures told { PutSpec (Some self.old.sent.items)
            (Some self.new.sent.items) bytes.now result }
        ensures cause { PutCause result self.old.faults self.new.faults }
        ensures never_falls { self.old.faults ≤ self.new.faults }

        ensures fails { FailsPut (passing self.old.fails.items (next_call self.old.calls))
            self.old.sent.items self.new.sent.items bytes.now result }
        ensures counts { CountsPut result self.old.faults self.new.faults }
        ensures counted { self.new.calls ≡ next_call self.old.calls }
        ensures same_fails { self.new.fails.items ≡ self.old.fails.items }
    {
        self.calls = self.calls.saturating_add(1);
        match passing(self.fails.as_slice(), self.calls) {
            None => {
                self.sent.extend_from_slice(bytes)?;
                Ok(())
            }
            Some(passes) => {
                let passed = (passes as usize).min(bytes.len());
                self.sent.extend_from_slice(&bytes[..passed])?;
                count_put(&mut self.faults, PutRefused::Failed);
                Err(PutRefused::Failed)
            }
        }
    }
}
