//! A sink in memory.
ghost use Rattle.std.specs.Prelude.{◌≡◌, ℕ, List, [], Some};

use crate::sinks::{PutRefused, Sink};
use std::alloc::Global;
use std::marker::Model;

/// The bytes put, in memory. It tells them and never fails.
/// Its count of faults is always 0, so `Failed` never comes.
#[derive(Drop)]
pub struct MemorySink {
    sent: Vec<u8>,
}

impl Model for MemorySink {
    ghost Value = { List ℕ };

    ghost view = { λ sink. sink.sent.items };
}

impl MemorySink {
    /// A sink with no byte. It allocates nothing.
    pub fn new(alloc: Global) -> MemorySink
        ensures { result ≡ [] }
    {
        MemorySink {
            sent: Vec::new(alloc),
        }
    }

    /// The bytes put so far.
    pub fn bytes(&self) -> &[u8]
        ensures { result.now ≡ self.now }
    {
        self.sent.as_slice()
    }
}

impl Sink for MemorySink {
    ghost state = { λ sink. record { told = Some sink; faults = 0 } };

    fn put(&mut self, bytes: &[u8]) -> Result<(), PutRefused> {
        self.sent.extend_from_slice(bytes)?;
        Ok(())
    }
}
