//! What the blocks of the versions have in common, said of cells and of the log alone: definitions
//! and laws, which touch nothing. No store of nodes occurs here.
//!
//! Aligned blocks are in `specs/contents/Aligned.antt`, the number of their different contents in
//! `specs/contents/Contents.antt`, versions that are kept and marks that come to a log in
//! `specs/contents/Versions.antt`. What the laws say is in `specs/contents/Statements.antt`.

mod laws;

pub use laws::{aligned_blocks_have_places, marks_come_to_their_places, marks_leave_logs_legal};
