//! Laws that the texts of scripts, of regions and of scenes mean what is built from them.
#![tactic(auto)]

mod loads;
mod regions;
mod scenes;

pub use regions::{loads_are_counted, regions_are_counted};
pub use scenes::{scenes_are_built, stamps_are_read};
