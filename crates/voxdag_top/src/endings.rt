use commands::CommandRefused;
use script_files::{Completed, Ended};

/// How the program ends, before the line that says it is put. The clauses of [`crate::voxdag`]
/// speak of it where the line could not be put; no call gives one.
#[derive(Drop)]
pub enum Ending<'w> {
    /// The command came to its end, and all outputs are written.
    Completed(Completed),
    /// The words are not in the grammar.
    Usage,
    /// The command was refused at one of its stages.
    Refused(CommandRefused<'w>),
}

/// How the program ended: the status, and the closed world where scripts ran and it is 0.
#[derive(Drop)]
pub struct Gated {
    pub status: u8,
    pub ended: Option<Ended>,
}
