//! How many cells of a world are set and where, how many of their sides are exposed, and where two
//! worlds differ. It reads any store that can be read, and takes no memory but the stack's.
//!
//! A walk goes by different nodes and parts, not by blocks: what it found of one it tells of all
//! that are alike. What is asked is said of cells alone, in `vw_cell` (`Counts.antt`, `Faces.antt`
//! and `Extents.antt` of its `specs/`); what counts in a block, in `specs/Tallies.antt` and
//! `specs/Exposed.antt` here.
#![tactic(auto)]

mod blanks;
mod counts;
mod differences;
mod exposed_sides;
mod extents;
mod leaf_parts;
mod leaves;
mod octant_parts;
mod pruning;
mod tallies;
mod wholes;

pub use blanks::passes_none;
pub use counts::{SetCells, count, get};
pub use differences::{changes, changes_in};
pub use exposed_sides::{ExposedSides, across, faces, next_bits, stays};
pub use extents::{bounds, bounds_in};
pub use tallies::Subject;
pub use wholes::WholeBlock;
