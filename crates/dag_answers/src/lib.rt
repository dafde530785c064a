//! The questions of scripts, asked of one version of a file of many versions, the file of the
//! versions of a history, and the world that stands behind one.
//!
//! It takes bytes and spelled questions, and touches no shelf. To make a file it takes memory for
//! a store in which the history is replayed. What a look answers is said in `specs/Looks.antt`,
//! which history has a file, and which, in `specs/Histories.antt`, and which record is the first
//! that isn't legal in `specs/Legality.antt`.
#![tactic(auto)]

mod asking;
mod laws;
mod legality;
mod making;
mod placing;
mod questions;
mod versions;

pub use asking::{LookRefused, ask_version, look};
pub use laws::looks_are_judged;
pub use legality::first_illegal;
pub use making::{HistoryRefused, file_of_history, world_of_history};
pub use questions::{SpelledQuestion, SpelledStep, SpelledWay};
pub use versions::{version_changes, version_file, version_region, version_same, version_surface};
