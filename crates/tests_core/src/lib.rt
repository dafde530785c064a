//! Tests of the pure core: its buckets and events with the replies that its table gives; of the
//! store for one thread, DAG files, questions, regions and scenes. It holds tests alone.
#![tactic(auto)]

#[cfg(test)]
mod buckets;
#[cfg(test)]
mod leaf_sides;
#[cfg(test)]
mod plans;
#[cfg(test)]
mod questions;
#[cfg(test)]
mod reach;
#[cfg(test)]
mod run_tests;
mod stores;
#[cfg(test)]
mod table_tests;
