//! Which answers fit a history, when a history, scripts and transcripts agree, how a run keeps
//! that line by line, and what a run of scripts gives.
//!
//! It is definitions, laws and the types of what runs give, and touches nothing. The definitions
//! speak of cells and records alone: which answer fits is in `specs/Answers.antt`, what agrees in
//! `specs/Agreeing.antt`, the steps of a run in `specs/Running.antt`, and what a run gives in
//! `specs/Runs.antt`. The laws are the contracts of the functions here.
#![tactic(auto)]

mod laws;
mod possible;
mod runs;
mod saves;
mod scripts;
mod sessions;

pub use laws::{
    answers_go_on, each_answer_is_a_step, full_only_where_possible, runs_go_on,
    sessions_agree_beside_others, shown_records_are_accepted_once,
};
pub use possible::contents_have_buckets;
pub use runs::Transcript;
pub use saves::SavedBox;
pub use scripts::{arms_take_lines, plain_edits_want_their_parts};
pub use sessions::{
    ActAnswer, AskedAt, LineResponder, OnceAnswer, SavedAt, SessionCalls, answer_line,
    calls_take_lines, run_lines, sessions_are_a_run, sessions_go_on,
};
