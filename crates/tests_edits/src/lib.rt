//! Tests of the edits over a store: rows of what they make, full buckets, and how many turns large
//! fills take. It holds tests alone, over the store for one thread.
#![tactic(auto)]

#[cfg(test)]
mod acts;
#[cfg(test)]
mod colours;
#[cfg(test)]
mod crowds;
#[cfg(test)]
mod edit_tests;
#[cfg(test)]
mod edited;
#[cfg(test)]
mod turns;
