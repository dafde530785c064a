//! The report of a run: its rows, and the text of them.
#![tactic(auto)]

mod laws;
mod rows;
mod texts;

pub use laws::stores_tell_reports;
pub use rows::ReportRow;
pub use texts::report_text;
