//! The copy of a box to another place, over any store of nodes.
//!
//! It reads the old root's blocks at an offset and makes nodes by `edit_walk`. What it makes of a
//! block is in `specs/Copies.antt`.
#![tactic(auto)]

mod copies;
mod rebuild;
mod sources;
mod starts;

pub use copies::CopyTask;
pub use rebuild::{copy_may_repeat, rebuild_copy, rebuild_copy_with};
