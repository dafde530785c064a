//! For tests: gates at which workers meet, worlds in a store, and models to stamp into them.
#![tactic(auto)]

mod gates;
mod worlds;

pub use gates::{GatePoint, Meeting, Moment, Rule, Turns};
pub use worlds::{Drawing, Found, Refusal, StoredWorld};
