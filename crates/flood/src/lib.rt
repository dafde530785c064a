//! The empty region of a box that is connected with a cell, over any store that can be read.
//!
//! It goes by rows of bits and whole blocks, and takes memory for them, for the list and for the
//! file. A model's region is told over a store of its own (`specs/Models.antt`). What is connected
//! is said in `specs/Paths.antt` and what a region is in `specs/Regions.antt`, in cells alone.
#![tactic(auto)]

mod bit_regions;
mod files;
mod flooding;
mod laws;
mod listing;
mod models;
mod reading;
mod spreading;

pub use files::{RegionFile, region_file};
pub use flooding::flood;
pub use laws::alike_cells_have_one_region;
pub use models::{FloodRefused, model_region};
