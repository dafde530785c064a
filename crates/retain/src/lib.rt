//! Which versions a run keeps where it keeps the last ones alone: what falls out of a window, which
//! marks stand at each time, and how a version that is no longer kept is refused.
#![tactic(auto)]

mod comparing;
mod fallen;
mod laws;
mod passes;
mod refusals;

pub use comparing::{SameAt, SameRefused};
pub use fallen::falls_out;
pub use laws::{
    all_held_leaves_marks_by_hand, all_marks_are_one_list, all_marks_keep_the_last,
    all_marks_lie_within, one_more_by_hand_is_one_more, one_more_record_pushes_one_out,
};
pub use passes::all_marks;
pub use refusals::{ForgetRefused, PinRefused};
