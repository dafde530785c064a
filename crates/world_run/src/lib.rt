//! Scripts that sessions run in threads, in one world.
//!
//! It opens the world, hands each worker a session and its script, and closes the world when all
//! have ended; a saved version stays held until its file is asked for. What a run gives is said in
//! `specs/Ends.antt`, in the terms of `conformance` alone; no text occurs here.
#![tactic(auto)]

mod accepted;
mod endings;
mod open_runs;
mod rooms;
mod runs;
mod works;

pub use endings::WorldRan;
pub use node_table::Closed;
pub use open_runs::OpenRun;
pub use runs::{ScriptsRun, Settings, run_scripts};
pub use session::Ended;
