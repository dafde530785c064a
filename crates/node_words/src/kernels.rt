//! The bits of a leaf's block at once: those of a box, of a ball, and of a leaf that lies across
//! eight others. They are computed from numbers, and touch nothing.
//!
//! Each answers for 64 cells by a few operations on whole words, and is proved to say of each cell
//! what its definition says: which bit is whose is in `specs/kernels/Leaves.antt`, and when a cell
//! is in a box or a ball in `specs/kernels/Places.antt` of `vw_cell`.

mod balls;
mod boxes;
mod laws;
mod near_balls;
mod windows;

pub use balls::ball_bits;
pub use boxes::box_bits;
pub use laws::{leaves_lie_across_eight, leaves_show_their_cells};
pub use windows::window_bits;
