//! A store of nodes for one thread, over buckets of words: it keeps each node once, and frees it
//! with its last reference. Roots can be kept in places of their own.
//!
//! It has no turn and no atomic word. What it is stands in `specs/Known.antt`, in the terms of the
//! core that every store keeps to.
#![tactic(auto)]

mod entries;
mod notes;
mod noting;
mod sought;
mod store;
mod traits;

pub use entries::{EntryWords, KeyWords, Pairs, slots_are_apart, words_of};
pub use notes::{Note, Notes};
pub use store::OneStore;
