//! Cells of a world, and the boxes, balls and aligned blocks of cells that edits and questions
//! name.
//!
//! Every layer above speaks of membership by the definitions in `specs/Places.antt` alone. What may
//! be asked of a world's cells is said here too, with no block, node or version: the exposed sides
//! of cells in `specs/Faces.antt`, the least box of all cells in `specs/Extents.antt`.
#![tactic(auto)]

mod balls;
mod blocks;
mod boxes;
mod cells;
mod directions;
mod memory;
mod sides;

pub use balls::Ball;
pub use blocks::Block;
pub use boxes::Boxed;
pub use cells::Cell;
pub use directions::Direction;
pub use memory::Memory;
pub use sides::Side;

mod bits;

pub use bits::BitSet;
