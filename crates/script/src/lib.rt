//! Scripts: the commands that a text gives, line by line, or the first fault that it has.
//!
//! It reads a text's bytes, and takes memory for the list of commands. The language stands in
//! `specs/`: lines and words in `Lines.antt`, numbers in `Numbers.antt`, a row for each command in
//! `Commands.antt`, what must be there for it in `Placing.antt`, and in `Scripts.antt` whole texts
//! and which fault is the first.
#![tactic(auto)]

mod commands;
mod faults;
mod lines;
mod names;
mod numbers;
mod placing;
mod reading;
mod said;
mod save_names;
mod spelling;
mod words;

pub use commands::{Command, SaveName, Script, ScriptLine};
pub use faults::{ScriptFault, ScriptKind};
pub use numbers::number;
pub use reading::read_script;
