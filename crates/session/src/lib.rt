//! A world that many sessions edit and read at the same time, with one history of all of them.
//!
//! A [`Hand`] lends a session as a store of nodes. Edits run over hands, records stand in the log
//! of the table, and an old version is read with no turn. No file and no text occurs here. What
//! each call tells is said in the terms of `conformance` (`specs/sessions/CallSpecs.antt` there);
//! what a world and a session are seen as, and what a closed world left, in
//! `specs/SessionWorlds.antt` and `specs/Closes.antt`.
#![tactic(auto)]

mod acts;
mod asks;
mod attempts;
mod begin;
mod cells;
mod closes;
mod contexts;
mod ended;
mod forgets;
mod hand;
mod heads;
mod lending;
mod pins;
mod responders;
mod sames;
mod saves;
mod scripts;
mod surely;
mod turns;
mod undoing;
mod world;

pub use closes::CloseRefused;
pub use conformance::{ActAnswer, OnceAnswer};
pub use ended::Ended;
pub use hand::Hand;
pub use saves::PinnedSave;
pub use scripts::run_script;
pub use version_log::Pinned;
pub use world::{Session, World};
