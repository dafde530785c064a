//! Tests of the store for one thread, over its public calls, and of DAG files byte by byte: what
//! is refused and where, what a file tells of its versions, and files that are written of a
//! store's versions. It holds tests and what they call alone.

mod looks;
mod worlds;

pub use looks::{Counted, fault_in, look_at, versions_of};
pub use worlds::full_world_file;

#[cfg(test)]
mod calls;
#[cfg(test)]
mod clipped;
#[cfg(test)]
mod crowded;
#[cfg(test)]
mod dag_tests;
#[cfg(test)]
mod files;
#[cfg(test)]
mod octants;
#[cfg(test)]
mod slot_tests;
#[cfg(test)]
mod under;
