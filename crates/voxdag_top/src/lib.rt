//! The program `voxdag` as a call over any shelf and any sink.
//!
//! It reads the words of its line, carries the command out, and puts one line and a status. What
//! each status means and which one must come is said in `specs/Statuses.antt` and
//! `specs/Verdicts.antt`, and all of it for both calls in `specs/Promises.antt`.
#![tactic(auto)]

mod calls;
mod endings;
mod laws;
mod lines;

pub use calls::{voxdag, voxdag_gated};
pub use endings::{Ending, Gated};
pub use laws::{
    calm_shelves_give_the_verdict, no_words_lack_a_verdict, statuses_are_told, verdicts_are_one,
    words_have_a_verdict,
};
