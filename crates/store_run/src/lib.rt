//! Versions over a store of shared nodes for one thread: a history replayed, or a world that stands
//! open and is changed one call at a time.
//!
//! The program's runs are those of `world_run`; on this stand audits, files of versions and the
//! library for C. What its versions are is said in `specs/Kept.antt`, what a replay of a history
//! makes in `specs/Replaying.antt`. No script, table, thread or text occurs here.
#![tactic(auto)]

mod compared;
mod facts;
mod floods;
mod held_roots;
mod histories;
mod lent_roots;
mod lines;
mod marked;
mod open_worlds;
mod replaying;
mod replays;
mod seen;
mod stored_versions;
mod tint_changes;
mod tint_files;

pub use act_rebuilds::{draw_models, rebuild_act, tell};
pub use flood::RegionFile;
pub use held_roots::HeldRoots;
pub use marked::MarkedReplay;
pub use open_worlds::OpenWorld;
pub use replaying::{Replay, ReplayRefused};
