//! Events of any number of sessions over one core, one after another: what holds after each of
//! them, whatever the order.
//!
//! It holds laws and the loop that they are told of, and no store; the loop takes memory for the
//! core and its replies. The meaning of the laws is in `specs/Statements.antt`, the states that
//! events lead through in `specs/Runs.antt`.
#![tactic(auto)]

mod runs;

pub use runs::{Ran, run_events};
