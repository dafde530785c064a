//! Tests of the words that the program's top call takes, of its commands besides `run`, of the
//! examples of `docs/SCRIPTS.md`, and of the calls that ask versions of a file. It holds tests, over shelves and sinks in memory, of which one
//! takes real files in a folder of its own; and what other tests ask the top call.
#![tactic(auto)]

#[cfg(test)]
mod audit_tests;
#[cfg(test)]
mod audits;
mod calls;
#[cfg(test)]
mod count_tests;
#[cfg(test)]
mod crowd_tests;
#[cfg(test)]
mod dag_tests;
#[cfg(test)]
mod demo_tests;
#[cfg(test)]
mod device_tests;
#[cfg(test)]
mod file_tests;
#[cfg(test)]
mod flood_tests;
#[cfg(test)]
mod full_tests;
#[cfg(test)]
mod guide_tests;
#[cfg(test)]
mod look_tests;
#[cfg(test)]
mod scene_tests;
#[cfg(test)]
mod version_tests;
#[cfg(test)]
mod word_tests;

pub use calls::{
    ANSWERS, GOOD, Gated, JOURNAL, ONE, REPORT, TWO, ask, ask_gated, ends, ends_by, has, holds,
    holds_last, is_end, is_refused, is_wanted, lacks, one_fault, repeated, shelf_with, voxdag,
    voxdag_gated, words_of,
};
