//! The pure core of a world: its state by look-ups, what makes it sound, what may happen to it, and
//! the laws of all that.
//!
//! A state is the book and the key of each name, a root for each version, the log, and what each
//! holder holds (`specs/States.antt`). Whoever keeps entries in whatever form shows that its words
//! can be read as such a state and that its steps are events of it (`specs/Events.antt`,
//! `specs/LogEvents.antt`); soundness and everything that follows from it then holds by the laws.
//! Each law is one clause of one function with an empty body.
#![tactic(auto)]

mod contents;
mod entries;
mod numbers;
mod places;
mod returns;
mod seen;
mod shapes;
mod steps;
mod tints;
mod versions;

pub use contents::{
    aligned_blocks_have_places, marks_come_to_their_places, marks_leave_logs_legal,
};
pub use entries::{keys_are_sought_in_one_bucket, named_entries_live};
pub use numbers::{live_entries_are_different_blocks, live_entries_are_different_contents};
pub use places::{
    Places, child_in, child_word, child_words_tell_children, halves,
    keys_and_words_tell_each_other, pair_word, places_are_apart, places_are_in_the_table,
    words_can_be_told,
};
pub use returns::freed_parts_are_different;
pub use seen::{holders_are_seen_by_trees, live_trees_are_trees};
pub use shapes::{full_buckets_have_enough, shapes_are_stored_once, trees_stand_by_levels};
pub use steps::{steps_keep_soundness, store_steps_keep_soundness};
pub use tints::{
    journals_of_version_1_are_plain, parts_make_the_tints, plain_stores_have_the_cells_of_versions,
    plain_versions_have_tint_1, stored_tints_are_read, stores_agree_where_tints_do,
    stores_keep_the_tints_of_versions, tinted_acts_set_what_plain_ones_set,
    tints_tell_the_cells_of_versions, versions_agree_where_their_tints_do,
};
pub use versions::{roots_tell_cells, targets_may_be_appended, untouched_states_are_sound};
