//! Where the words of a store and of its log stand in one table, and what a key's words say.
//!
//! A plan decides all places; no word is read or written here. Where each stands is in
//! `specs/places/WordIds.antt`, what a child's word says in `specs/places/Words.antt`, and a key's
//! in
//! `specs/places/KeyWords.antt`.

mod laws;
mod places;
mod words;

pub use laws::{
    child_words_tell_children, keys_and_words_tell_each_other, places_are_apart,
    places_are_in_the_table, words_can_be_told,
};
pub use places::Places;
pub use words::{child_in, child_word, halves, pair_word};
