use std::fmt;
use vw_cell::{Boxed, Cell};

/// What a command was answered with.
#[derive(Clone, Copy, Debug, PartialEq, Eq)]
pub enum Answer {
    /// The change was accepted.
    Done,
    /// The version was forgotten.
    Forgot(u32),
    /// Whether the cell is set.
    Is(bool),
    /// The tint of the cell, 0 where it isn't set.
    Colour(u8),
    /// The number of set cells.
    Count(u64),
    /// The number of faces.
    Faces(u64),
    /// The least box of all set cells, where there are any.
    Extent(Option<Boxed>),
    /// The first set cell on the ray, where there is one.
    Hit(Option<Cell>),
    /// Whether two versions have the same cells.
    Same(bool),
    /// The moment is the newest version.
    Head,
    /// A box was saved, with so many set cells.
    Saved(u64),
    /// The change was refused, since a bucket of a level had no room.
    Full { level: u8, bucket: u16 },
    /// There is no such version yet.
    NoVersion(u32),
    /// The version was forgotten before.
    Forgotten(u32),
    /// The newest version can't be forgotten.
    IsHead,
    /// There is no version to go back to.
    NothingToUndo,
    /// There is no version to go on to.
    NothingToRedo,
    /// The change was refused, since the history has all records that it can have.
    LogFull,
    /// The change was tried once, on this version, and another came before it.
    Stale(u32),
}

/// The words of the answer.
impl fmt::Display for Answer {
    ghost use Rattle.std.specs.Prelude.{Some};
    ghost use Rattle.transcript.specs.Lines.{answer_text};

    ghost output = { λ answer. Some (answer_text answer) };

    fn fmt<W: fmt::Write>(&self, f: &mut fmt::Formatter<W>) -> fmt::Result {
        match self {
            Answer::Done => write!(f, "ok"),
            Answer::Forgot(v) => write!(f, "forgot {v}"),
            Answer::Is(true) => write!(f, "set"),
            Answer::Is(false) => write!(f, "clear"),
            Answer::Colour(tint) => write!(f, "colour {tint}"),
            Answer::Count(cells) => write!(f, "count {cells}"),
            Answer::Faces(number) => write!(f, "faces {number}"),
            Answer::Extent(None) => write!(f, "bounds none"),
            Answer::Extent(Some(b)) => write!(f, "bounds {} {}", Words(b.at), Words(b.size)),
            Answer::Hit(None) => write!(f, "miss"),
            Answer::Hit(Some(c)) => write!(f, "hit {}", Words(*c)),
            Answer::Same(true) => write!(f, "same"),
            Answer::Same(false) => write!(f, "different"),
            Answer::Head => write!(f, "head"),
            Answer::Saved(cells) => write!(f, "saved {cells}"),
            Answer::Full { level, bucket } => write!(f, "full {level} {bucket}"),
            Answer::NoVersion(v) => write!(f, "no version {v}"),
            Answer::Forgotten(v) => write!(f, "forgotten {v}"),
            Answer::IsHead => write!(f, "is head"),
            Answer::NothingToUndo => write!(f, "nothing to undo"),
            Answer::NothingToRedo => write!(f, "nothing to redo"),
            Answer::LogFull => write!(f, "log full"),
            Answer::Stale(base) => write!(f, "stale {base}"),
        }
    }
}

// A cell that prints as its three numbers.
#[derive(Clone, Copy)]
struct Words(Cell);

impl fmt::Display for Words {
    ghost use Rattle.std.specs.Prelude.{Some};
    ghost use Rattle.transcript.specs.Lines.{cell_text};

    ghost output = { λ words. Some (cell_text words.0) };

    fn fmt<W: fmt::Write>(&self, f: &mut fmt::Formatter<W>) -> fmt::Result {
        let Cell { x, y, z } = self.0;
        write!(f, "{x} {y} {z}")
    }
}

/// The answer to the command of a script's line, with its moment: the number of records when the
/// answer was decided, an accepted change included.
#[derive(Clone, Copy, Debug, PartialEq, Eq)]
pub struct LineAnswer {
    pub line: u32,
    pub at: u32,
    pub answer: Answer,
}
