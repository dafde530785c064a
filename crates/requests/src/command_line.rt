//! The words of a command line as what they are: options with their values, and operands.
//!
//! It knows the words of a run and no file. A run's words, part after part, are in
//! `specs/command_line/Parts.antt`; the kit's `clap` splits them by the command in
//! `specs/command_line/Command.antt`.

mod lines;
mod parts;
mod splits;

pub use lines::{Line, are_of_a_run};
pub use parts::is_operand;
pub use splits::split;
