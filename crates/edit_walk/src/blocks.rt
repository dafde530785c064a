//! Shares of blocks that a rebuild takes from a store: of a leaf, of eight octants joined, of a
//! node that is there already, and of full blocks, whose greatest is kept aside so that each is
//! made once.
//!
//! It touches the store that it is given. Whoever meets a full bucket gives back what it has in
//! hand, so that the store holds what it held. What came, what is aside and what is refused is said
//! in `specs/blocks/Blocks.antt`.

mod blocks;
mod full_blocks;
mod fulls;
mod rows;
mod shares;

pub(crate) use blocks::are_none;
pub use blocks::{join, leaf};
pub(crate) use full_blocks::FullBlocks;
pub(crate) use fulls::full_block;
pub use rows::{back_all, put};
pub use shares::{again, back_if, named};
