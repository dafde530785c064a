//! The commands that run scripts, `run` and `demo`, from files to files, over any shelf; and one
//! call for all commands, `carry_out`.
#![tactic(auto)]

mod carrying;
mod demos;
mod laws;
mod outputs;
mod runs;
mod scripts;
mod tallies;
mod texts;

pub use carrying::{carry_out, names_written};
pub use laws::runs_are_answered_yes;
pub use tallies::{Completed, Done, LoadTally, LoadWritten, RunWritten, Tally};
pub use world_run::Ended;
