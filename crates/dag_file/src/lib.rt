//! Many versions of a world in one file: each node once, by level, and a root for each version.
//!
//! It writes from any store that can be read, and its reader is such a store over the file's bytes.
//! The file of a list of versions is in `specs/Kept.antt`, the first broken rule in
//! `specs/Rules.antt`.
#![tactic(auto)]

mod blocks;
mod contents;
mod entries;
mod faults;
mod fields;
mod files;
mod headers;
mod keys;
mod laws;
mod layers;
mod naming;
mod putting;
mod reading;
mod roots;
mod views;
mod writing;

pub use faults::DagFault;
pub use files::DagFile;
pub use laws::{
    a_file_is_right_or_has_a_fault, a_list_has_one_file, faults_are_of_broken_files,
    files_of_one_list_are_one, held_roots_show_canonical_shapes, right_files_are_of_their_lists,
    right_files_keep_shapes,
};
pub use views::DagView;
pub use writing::write_dag;
