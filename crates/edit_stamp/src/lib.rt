//! Stamps of models over any store of nodes, which set a model's cells or clear them.
//!
//! A model is drawn once, as bits of leaves and words for cubes of leaves. How is in
//! `specs/Drawings.antt` and `specs/Tiers.antt`, what a stamp makes of a block in
//! `specs/Stamps.antt`.
#![tactic(auto)]

mod laws;
mod planes;
mod rebuild;
mod scans;
mod stamps;
mod stencils;
mod tiers;

pub use laws::stencils_stamp_their_models;
pub use rebuild::{rebuild_stamp, rebuild_unstamp};
pub use stencils::{Stencil, StencilCover};
