//! Lines, words and numbers of texts in which each thing has one form, so that what is read is what
//! was written.
//!
//! It knows no command and no answer. How a text is parted is in `specs/Parts.antt`, and a number's
//! digits in `specs/Numbers.antt`.
#![tactic(auto)]

mod cuts;
mod exacts;
mod faults;
mod sources;
mod taking;

pub use cuts::{cut, split_line};
pub use exacts::{exact_number, exact_up_to};
pub use faults::WordFault;
pub use sources::{ExactWords, WordSource};
pub use taking::{ThreeWords, must_be, number_by, take_end, take_three, take_word};
