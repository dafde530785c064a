//! The set cells of a box as a list of voxels, and as a VOX file, and what can be seen of a box,
//! over any store that can be read.
//!
//! It reads a store, and takes memory for the list and the file; no file is written here. A
//! layer's leaves are gathered once for all its rows. The list, in order, is in
//! `specs/Listing.antt`, the bytes of the file in `specs/Saved.antt`, and what can be seen in
//! `specs/Surface.antt`.
#![tactic(auto)]

mod alike;
mod bare_layers;
mod bare_rows;
mod boxes;
mod files;
mod leaves;
mod near_leaves;
mod nearby;
mod rows;
mod side_walks;
mod surfaces;
mod surrounded;

pub use boxes::cells_in;
pub use files::box_file;
pub use leaves::gather;
pub use rows::{push_if, row_start, run_length};
pub use surfaces::surface_in;
