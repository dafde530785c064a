//! Whether a journal, scripts and transcripts are those of one run, told without the program that
//! ran them.
//!
//! It reads each answer against the history, and carries the history out again over the store for
//! one thread where cells are asked for. What its yes and its no mean is said in
//! `specs/Audits.antt`, in the terms of `conformance`; no text occurs here.
#![tactic(auto)]

mod answering;
mod audits;
mod comparing_answers;
mod counts;
mod fits;
mod judges;
mod laws;
mod lines;
mod marks;
mod replaying;
mod reruns;
mod sessions;

pub use audits::AuditRefused;
pub use judges::audit;
pub use laws::{answers_are_told, counts_are_enough, questions_have_one_answer, runs_are_audited};
pub use replaying::UndoTargets;
