//! What every walk from a root down to leaves has in common, over any store that can be read: the
//! octants of a block by name, the part of a box in an octant, a look at one cell, and a small
//! table of what was found before.
//!
//! It reads a store, and takes no memory but for that table, which has a fixed size. What stands
//! below a root is said in `specs/descent/Roots.antt`, a look at a cell in
//! `specs/descent/Looks.antt`, parts in
//! `specs/descent/Parts.antt`, and answers that are remembered in `specs/descent/Answers.antt`.

mod answers;
mod blocks;
mod landings;
mod laws;
mod looks;
mod parts;
mod sameness;

pub use answers::{Answers, Query};
pub use blocks::{half_side, leaf_bits, name_of, octant_bits, octant_name, octant_names};
pub use landings::{Landing, descend};
pub use laws::{octants_count_their_cells, parts_have_the_cells_of_their_box};
pub use looks::{leaf_has, look, whole_block};
pub use parts::{is_empty, part_of};
pub use sameness::{same_boxes, same_cells, same_names};
