//! What a store for one thread notes of its shares, and what takes no part in what it does: which
//! trees are held, which shapes were added and what met a full bucket.
//!
//! Only contracts see it. What is noted is in `specs/notes/StoreNotes.antt`, how it changes in
//! `specs/notes/Changes.antt`.

mod notes;

ghost use Rattle.std.specs.Prelude.{◌≡◌};

pub use notes::{Note, Notes};
