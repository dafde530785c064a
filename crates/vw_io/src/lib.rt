//! Files by name and a place to put bytes, each as a trait, with an implementation in memory and
//! one over the system.
//!
//! Only `FileShelf` and `StdSink` touch the system. They tell no content: they are the trusted
//! edge. A trait's ghost members are what it holds, which it may leave untold, and how often it
//! has failed (`specs/Outside.antt`). What each call answers is said in `specs/Read.antt`,
//! `specs/Write.antt` and `specs/Put.antt`, inputs and outputs in a row in `specs/Inputs.antt` and
//! `specs/Outputs.antt`.
#![tactic(auto)]

mod faults;
mod faulty_shelf;
mod faulty_sink;
mod file_shelf;
mod files;
mod inputs;
mod memory_shelf;
mod memory_sink;
mod names;
mod outputs;
mod readers;
mod shelves;
mod sinks;
mod std_sink;
mod writers;

pub use faulty_shelf::FaultyShelf;
pub use faulty_sink::FaultySink;
pub use file_shelf::FileShelf;
pub use inputs::{Input, InputRefused, Text, read_all};
pub use memory_shelf::MemoryShelf;
pub use memory_sink::MemorySink;
pub use names::collide;
pub use outputs::{Output, OutputRefused, write_all};
pub use shelves::{ReadRefused, Shelf, WriteRefused};
pub use sinks::{PutRefused, Sink};
pub use std_sink::StdSink;

#[cfg(test)]
mod file_tests;
#[cfg(test)]
mod stream_tests;
