//! The commands that run no scripts, from files to files, over any shelf: a file for each, with
//! what it means beside it in `specs/`; and what all commands have in common.
//!
//! Where an input or a text is refused, no file has changed, and `specs/Outcomes.antt` says what
//! each answer means.
#![tactic(auto)]

mod audits;
mod counts;
mod dags;
mod floods;
mod inputs;
mod journals;
mod looks;
mod puts;
mod refusals;
mod scene_files;
mod scripts;
mod sides;

pub use audits::{audit_files, names_read};
pub use counts::count_file;
pub use dags::dag_file;
pub use floods::flood_file;
pub use inputs::{SCRIPT_LIMIT, VOX_LIMIT};
pub use looks::look_file;
pub use puts::put_out;
pub use refusals::{
    CommandRefused, NamedOutputRefused, NumberedFault, TextRefused, TranscriptLine,
};
pub use scene_files::{SceneTally, scene_file};
pub use scripts::read_scripts;
pub use sides::world_kept;
