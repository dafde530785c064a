//! Builds the root of a new version over any store, from a task that says what becomes of each
//! block. It touches the store, and takes no memory but the stack's.
//!
//! The walk goes down where a block is mixed. Of what stands it takes no share until a block above
//! it is known to change, and where nothing changes the old block is the answer. It remembers
//! blocks that it made, in the memo that it is given, so a block like one of them costs one share
//! more. A walk is told in `specs/Walks.antt`, what it finds of a block in `specs/Outcomes.antt`
//! and a memo in `specs/Memos.antt`; what a task makes of a block is said by cells, in
//! `specs/cells/Tasks.antt`.
#![tactic(auto)]

mod blocks;
mod cells;
mod memos;
mod octants;
mod outcomes;
mod upper;
mod walks;
mod worlds;

pub use blocks::{again, back_all, back_if, join, leaf, named, put};
pub use cells::{
    Task, Whole, clears_nothing, filled, is_large, leaf_bits, name_of, old_whole, paint, side_of,
};
pub use memos::{Latest, Memo, MemoEntry, NoMemo, Repeats};
pub use upper::Upper;
pub use walks::rebuild;
pub use worlds::rebuild_world;
