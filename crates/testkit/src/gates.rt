//! For tests: gates at which workers wait for each other, so that a test says how they meet.

mod meetings;
mod reached;
mod turns;

pub use meetings::{GatePoint, Meeting, Moment, Rule};
pub use turns::Turns;
