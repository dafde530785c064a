//! The words of a store for one thread: of each slot its book and its tag, and the bits of a leaf
//! or the words of a node.
//!
//! All memory is taken at the start. Books and words have a row for each level, and all words of a
//! node stand side by side (`specs/entries/Slots.antt`). How the words are read as books and keys
//! is said in `specs/entries/Words.antt`, and how they change in `specs/entries/Changes.antt`.

mod ends;
mod entries;
mod key_words;
mod rows;
mod tags;

ghost use Rattle.std.specs.Prelude.{◌≡◌, ◌<◌};
ghost use Rattle.node_words.specs.declared.shapes.names.Name.{Name};
ghost use Rattle.node_words.specs.Plans.{Layout};
ghost use Rattle.core_laws.specs.places.Names.{IsName};
ghost use Rattle.one_store.specs.entries.Slots.{slot_place, slots_at};

pub use entries::EntryWords;
pub use key_words::{KeyWords, Pairs, words_of};

/// Each name's slot has a place in the rows of its level, and two names of a level have two places.
pub fn slots_are_apart()
    ensures inside { (p : Layout) (n : Name) → IsName p n → slot_place p n < slots_at p n.level }
    ensures apart { (p : Layout) (m n : Name) → IsName p m → IsName p n → m.level ≡ n.level
        → slot_place p m ≡ slot_place p n → m ≡ n }
{}
