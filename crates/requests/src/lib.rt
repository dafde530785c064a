//! The words of a command line, as what they ask for: a request.
//!
//! What words mean is said in `specs/Words.antt` and `specs/Questions.antt`; those of a run are
//! split by `clap` before that (`command_line`).
#![tactic(auto)]

mod command_line;
mod orders;
mod questions;
mod words;

pub use command_line::{Line, are_of_a_run, is_operand, split};
pub use orders::{
    AuditOrder, Buckets, DagOrder, FileName, FloodOrder, LookOrder, Order, Request, SceneOrder,
};
pub use words::{request, words_of_a_run};
