//! A bucket as a list of slots, each empty or with an entry: a key, and how many references there
//! are to it. It touches memory alone; what its calls do stands in `specs/Buckets.antt`.
#![tactic(auto)]

mod buckets;
mod counted;
mod keys;

pub use buckets::Bucket;
pub use counted::{BucketFull, Entry, Lowered};
pub use keys::ExactKey;
