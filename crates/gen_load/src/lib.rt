//! A large input that one number makes: a VOX file and four scripts, for runs that a test or a user
//! can repeat from the number alone.
//!
//! It touches no file. What the load of a number is stands draw by draw in `specs/Loads.antt`, and
//! that each script keeps to a region of its own in `specs/Regions.antt`.
#![tactic(auto)]

mod edits;
mod generator;
mod inputs;
mod loads;
mod scripts;
mod voxels;

pub use inputs::Load;
pub use loads::{edits_keep_to_their_regions, load};
