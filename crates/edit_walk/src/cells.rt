//! What an edit makes of a block, told by cells: the trait of tasks, and what edits share that set
//! or clear the cells of a test.
//!
//! A task reads a store and makes nothing in it. What tasks promise is in `specs/cells/Tasks.antt`,
//! and the words of worlds for it in `specs/cells/Worlds.antt`.

mod paints;
mod sides;
mod tasks;

pub use node_words::{leaf_bits, name_of};
pub use paints::{clears_nothing, filled, old_whole, paint};
pub use sides::{is_large, side_of};
pub use tasks::{Task, Whole};
