//! For tests: what they ask the program's top call, over shelves and sinks in memory, and files to
//! ask it about. It holds no test, and touches memory alone.

mod asking;

pub use asking::{
    ANSWERS, GOOD, JOURNAL, ONE, REPORT, TWO, ask, ask_gated, ends, ends_by, has, holds,
    holds_last, is_end, is_refused, is_wanted, lacks, one_fault, repeated, shelf_with, words_of,
};
pub use voxdag_top::{Gated, voxdag, voxdag_gated};
