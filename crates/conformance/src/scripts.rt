//! What each arm of a run one line after another has to show to go on (`TakesLine` in
//! `specs/scripts/Sessions.antt`), once for all that answer line by line.

mod laws;

pub use laws::{arms_take_lines, plain_edits_want_their_parts};
