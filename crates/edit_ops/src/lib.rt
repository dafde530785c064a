//! Edits that set or clear the cells of a box, of a ball, or of a ball within a box, over any store
//! of nodes.
//!
//! Each is a task of `edit_walk`. What each makes of a block is in `specs/Boxes.antt`,
//! `specs/Balls.antt` and `specs/Clips.antt`.
#![tactic(auto)]

mod balls;
mod boxes;
mod clips;
mod laws;
mod rebuild;

pub use balls::{BallTask, Reach};
pub use boxes::BoxTask;
pub use laws::{mixed_blocks_are_the_worlds, tests_tell_what_is_partly_met};
pub use rebuild::{
    box_may_repeat, rebuild_ball, rebuild_ball_in, rebuild_ball_with, rebuild_box, rebuild_box_with,
};
