//! The answers to a script's commands, and their text: it is written and read back in one form.
//!
//! It touches no world and no file, an answer is a value here; it takes memory for texts and
//! lists. The words of each answer are in `specs/Lines.antt`, the numbers that it can hold in
//! `specs/Bounds.antt`, what a refused text says of itself in `specs/Refusals.antt`.
#![tactic(auto)]

mod answers;
mod laws;
mod moments;
mod reading;
mod texts;
mod words;

pub use answers::{Answer, LineAnswer};
pub use laws::{transcripts_are_refused_at_one_line, transcripts_have_one_reading};
pub use moments::moments_never_fall;
pub use reading::{TranscriptFault, read_transcript};
pub use texts::transcript_text;
