//! Acts on a world, the history of all accepted ones, and the plain meaning of both.
//!
//! What the cells of each version are is said in `specs/Moments.antt`, cell by cell and with no
//! tree, and what those of the store that keeps them are in `specs/Stores.antt`.
//! A legal history has a journal, and a journal one history: laws in `laws`.
#![tactic(auto)]

mod acts;
mod entries;
mod fitting;
mod histories;
mod journal;
mod laws;
mod making;
mod packing;
mod parts;
mod placing;
mod positions;
mod questions;
mod reading;
mod spelling;
mod stacks;
mod ways;

pub use acts::{Act, TintAct};
pub use histories::{History, Mark, Record};
pub use journal::journal_text;
pub use laws::{
    journals_are_refused_at_one_line, journals_tell_one_history, legal_histories_can_be_told,
};
pub use making::may_make;
pub use packing::{pack, unpack};
pub use positions::position;
pub use questions::Question;
pub use reading::{JournalFault, read_journal};
pub use spelling::{Spelled, SpelledTint, Three, read_act, read_box, three_numbers};
pub use stacks::Position;
pub use vox_read::Models;
pub use ways::Way;
