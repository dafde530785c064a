//! The chunks of a VOX file, as slices of its bytes: nothing is copied, and what no one asks for is
//! passed over.
//!
//! How a file is framed is in `specs/Frames.antt`, and what a refusal names in `specs/Faults.antt`.
#![tactic(auto)]

mod chunks;
mod faults;

pub use chunks::{Chunk, Chunks};
pub use faults::VoxFault;
